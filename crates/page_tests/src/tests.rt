mod of_page_source;
mod of_page_texts;
mod of_page_views;
mod texts;
