//! Laws that stand on contracts. They can be called.
use base::live_by_path;
use happy_calls::look::Look;
use label_lattice::laws;

fn of_labels() {
    laws::agreeing_labels_are_one();
    laws::raw_form_gives_back();
    laws::star_is_kept();
    laws::made_categories_stay_made();
    laws::order_is_partial();
    laws::join_is_least_upper_bound();
    laws::up_and_down_move_one_level();
    laws::test_tells_order();
}

fn of_dumps() {
    auditor::one_verdict();
    auditor::clean_is_legal();
    auditor::migrated_verdicts();
    dump_text::one_reading();
    dump_text::legal_is_dump();
    dump_text::boots_can_begin();
}

fn of_shows() {
    page_text::trees_are_whole();
    page_text::data_stays_in_place();
    shown_dumps::tree::colours_are_beside();
}

/// Calls each.
pub fn play(look: &mut Look) {
    look.part("laws_can_be_called");
    live_by_path();
    of_labels();
    of_dumps();
    of_shows();
    look.sees(true);
}
