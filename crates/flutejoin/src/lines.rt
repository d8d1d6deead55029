//! The lines that commands print and read.

pub(crate) mod compare_style;
pub(crate) mod fact_lines;
pub(crate) mod form;
pub(crate) mod hex_digits;
pub(crate) mod json_lines;
pub(crate) mod key_list;
pub(crate) mod key_words;
pub(crate) mod next_words;
pub(crate) mod report;
pub(crate) mod report_lines;
pub(crate) mod show_style;
pub(crate) mod style;
pub(crate) mod symbol_sum;
pub(crate) mod text;
