//! What `page/join` takes of page/page.html. `checks/page_source --write` makes this file.

pub(crate) const TEXT: &str = r##"<!doctype html>
<html lang="en">
<head>
<meta charset="utf-8">
<meta http-equiv="Content-Security-Policy" 
content="default-src 'none';
script-src 'sha256-nd2XDZsE5ePqIbi/dLmcxmiYw2KOvgtrwJxOz2j34WQ='; style-src 'sha256-QllKOrMaZs+1jFnsE4gSseb13iO/0B27Iw6rWQYLnU0='; img-src data: blob:; base-uri 'none'; form-action 'none'">
<meta name="referrer" content="no-referrer">
<meta name="viewport" content="width=device-width, initial-scale=1">
<link rel="icon" href="data:,">
<title>flamecollect</title>
<style>"##;
