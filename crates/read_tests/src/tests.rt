mod of_folded_lines;
mod of_wire_fields;
mod texts;
