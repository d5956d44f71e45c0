//! What `page/join` takes of page/print.css. `checks/page_source --write` makes this file.

pub(crate) const TEXT: &str = r##"@page { margin: 10mm; size: landscape; }
@media print {
:root { --paper: #fff; --ink: #000; --quiet: #444; color-scheme: light; }
body { display: block; height: auto; padding: 0; }
main, #stage { display: block; }
#tools, #lists, #divider, #picture, #lanes, #axis, #status, #tip { display: none !important; }
#paper { display: block; }
#paper svg { height: auto; max-height: 90vh; max-width: 100%; }
}
"##;
