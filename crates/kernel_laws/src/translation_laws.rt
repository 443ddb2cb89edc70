//! Which rows of translation a change of the state can touch, and that entries name what they may name: each law is the
//! contract of a function with an empty body, which hands the law to its caller's proof. They speak of the definitions
//! of `kernel_rules`, so a machine that keeps a row for each thread and slot may repair its rows by them.

mod laws;

pub use laws::{
    alike_keeps_rows, boot_names_rightly, calls_keep_rows, dead_have_none, dead_objects_show_none,
    death_keeps_rows, immutable_takes_writing, label_keeps_rows, listing_keeps_rows,
    made_keeps_rows, names_stay_right, new_thread_has_none, plain_keeps_rows, row_reads,
    rows_show_mappings, rows_show_segments, shut_rows_are_empty, slot_keeps_rows, space_keeps_rows,
    stale_rows_are_empty, unref_empties_rows, unref_keeps_rows,
};
