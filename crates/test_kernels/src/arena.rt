//! The arena kernel: what it keeps, how many labels its calls scan, and how many cells they read.
pub mod cases;
pub mod kept;
pub mod run;
pub mod scans;
