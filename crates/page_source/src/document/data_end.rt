//! What `page/join` takes of page/page.html. `checks/page_source --write` makes this file.

pub(crate) const TEXT: &str = r##"</script>
<script>(() => {
'use strict';
"##;
