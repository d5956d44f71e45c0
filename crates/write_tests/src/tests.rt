//! Worked examples.
mod boxes;
mod of_call_texts;
mod of_change_texts;
mod of_sum_texts;
mod of_svg_texts;
mod of_view_texts;
mod of_weight_texts;
mod sources;
mod texts;
