//! Names, titles and units that are hostile, or that have no room.

use super::drawings::{Boxes, makes};
use std::test::Fail;

const HOSTILE: Boxes<'static> = Boxes::Graph(&[
    (0, "<script>alert(\"1\")</script>", 0, 60, 0),
    (1, "", 0, 20, 20),
    (1, "&amp;'\"", 20, 20, 20),
    (1, "\u{0}\u{7f}\u{85}\u{202e}", 40, 20, 20),
]);

#[test]
fn markup_and_what_is_not_seen(rt: HostRuntime) -> Result<(), Fail> {
    let around = ("</title>]]>\n", "<s>&", 60, 1_200, false);
    let wanted =
        r##"<svg xmlns="http://www.w3.org/2000/svg" width="1200" height="72" viewBox="0 0 1200 72" font-family="monospace" font-size="12">
<title>&lt;/title&gt;]]&gt;[U+000A]</title>
<rect width="1200" height="72" fill="#fbfbf9"/>
<text x="4" y="15">&lt;/title&gt;]]&gt;[U+000A]</text>
<g><title>&lt;script&gt;alert(&quot;1&quot;)&lt;/script&gt;: 60 &lt;s&gt;&amp;, 100.00%, own 0 &lt;s&gt;&amp;</title><rect x="0" y="18" width="1200" height="17" fill="hsl(220, 8%, 82%)"/><text x="4" y="31">&lt;script&gt;alert(&quot;1&quot;)&lt;/script&gt;</text></g>
<g><title>(empty name): 20 &lt;s&gt;&amp;, 33.33%, own 20 &lt;s&gt;&amp;</title><rect x="0" y="36" width="400" height="17" fill="hsl(0, 48%, 74%)"/></g>
<g><title>&amp;amp;&#39;&quot;: 20 &lt;s&gt;&amp;, 33.33%, own 20 &lt;s&gt;&amp;</title><rect x="400" y="36" width="400" height="17" fill="hsl(270, 48%, 74%)"/><text x="404" y="49">&amp;amp;&#39;&quot;</text></g>
<g><title>[U+0000][U+007F][U+0085][U+202E]: 20 &lt;s&gt;&amp;, 33.33%, own 20 &lt;s&gt;&amp;</title><rect x="800" y="36" width="400" height="17" fill="hsl(180, 48%, 78%)"/><text x="804" y="49">[U+0000][U+007F][U+0085][U+202E]</text></g>
<text x="4" y="67">total 60 &lt;s&gt;&amp;</text>
</svg>
"##;
    makes(&rt, &around, &HOSTILE, wanted)
}

const NOT_OF_XML: Boxes<'static> = Boxes::Graph(&[
    (0, "\u{fffe}\u{ffff}", 0, 2, 0),
    (1, "\u{fffd}😀", 0, 2, 2),
]);

// The last two of the plane are none of XML, and what stands for a byte that is none of UTF-8 is.
#[test]
fn characters_that_xml_has_not(rt: HostRuntime) -> Result<(), Fail> {
    let around = ("\u{fffe}\u{ffff}\u{fffd}", "\u{7}", 2, 200, false);
    let wanted =
        r##"<svg xmlns="http://www.w3.org/2000/svg" width="200" height="72" viewBox="0 0 200 72" font-family="monospace" font-size="12">
<title>[U+FFFE][U+FFFF]�</title>
<rect width="200" height="72" fill="#fbfbf9"/>
<text x="4" y="15">[U+FFFE][U+FFFF]�</text>
<g><title>[U+FFFE][U+FFFF]: 2 [U+0007], 100.00%, own 0 [U+0007]</title><rect x="0" y="18" width="200" height="17" fill="hsl(220, 8%, 82%)"/><text x="4" y="31">[U+FFFE][U+FFFF]</text></g>
<g><title>�😀: 2 [U+0007], 100.00%, own 2 [U+0007]</title><rect x="0" y="36" width="200" height="17" fill="hsl(340, 48%, 82%)"/><text x="4" y="49">�😀</text></g>
<text x="4" y="67">total 2 [U+0007]</text>
</svg>
"##;
    makes(&rt, &around, &NOT_OF_XML, wanted)
}

const CUT: Boxes<'static> = Boxes::Graph(&[
    (0, "all", 0, 117, 0),
    (1, "ab", 0, 23, 23),
    (1, "abc", 23, 23, 23),
    (1, "ab", 46, 22, 22),
    (1, "\u{1}", 68, 30, 30),
    (1, "日本", 98, 19, 19),
]);

// Room for two, for two of three, for one, within a number, and before a wide letter.
#[test]
fn cut_labels(rt: HostRuntime) -> Result<(), Fail> {
    let around = ("cuts", "", 117, 117, false);
    let wanted =
        r##"<svg xmlns="http://www.w3.org/2000/svg" width="117" height="72" viewBox="0 0 117 72" font-family="monospace" font-size="12">
<title>cuts</title>
<rect width="117" height="72" fill="#fbfbf9"/>
<text x="4" y="15">cuts</text>
<g><title>all: 117, 100.00%, own 0</title><rect x="0" y="18" width="117" height="17" fill="hsl(220, 8%, 82%)"/><text x="4" y="31">all</text></g>
<g><title>ab: 23, 19.66%, own 23</title><rect x="0" y="36" width="23" height="17" fill="hsl(110, 48%, 74%)"/><text x="4" y="49">ab</text></g>
<g><title>abc: 23, 19.66%, own 23</title><rect x="23" y="36" width="23" height="17" fill="hsl(160, 48%, 78%)"/><text x="27" y="49">a…</text></g>
<g><title>ab: 22, 18.80%, own 22</title><rect x="46" y="36" width="22" height="17" fill="hsl(110, 48%, 74%)"/></g>
<g><title>[U+0001]: 30, 25.64%, own 30</title><rect x="68" y="36" width="30" height="17" fill="hsl(30, 48%, 74%)"/><text x="72" y="49">[U…</text></g>
<g><title>日本: 19, 16.24%, own 19</title><rect x="98" y="36" width="19" height="17" fill="hsl(350, 48%, 74%)"/></g>
<text x="4" y="67">total 117</text>
</svg>
"##;
    makes(&rt, &around, &CUT, wanted)
}

const WIDE: Boxes<'static> = Boxes::Graph(&[
    (0, "all", 0, 100, 0),
    (1, "日本語日", 0, 60, 60),
    (1, "<&>&", 60, 30, 30),
    (1, "日", 90, 10, 10),
]);

#[test]
fn wide_letters_take_two_places(rt: HostRuntime) -> Result<(), Fail> {
    let around = ("wide", "", 100, 100, false);
    let wanted =
        r##"<svg xmlns="http://www.w3.org/2000/svg" width="100" height="72" viewBox="0 0 100 72" font-family="monospace" font-size="12">
<title>wide</title>
<rect width="100" height="72" fill="#fbfbf9"/>
<text x="4" y="15">wide</text>
<g><title>all: 100, 100.00%, own 0</title><rect x="0" y="18" width="100" height="17" fill="hsl(220, 8%, 82%)"/><text x="4" y="31">all</text></g>
<g><title>日本語日: 60, 60.00%, own 60</title><rect x="0" y="36" width="60" height="17" fill="hsl(310, 48%, 74%)"/><text x="4" y="49">日本語…</text></g>
<g><title>&lt;&amp;&gt;&amp;: 30, 30.00%, own 30</title><rect x="60" y="36" width="30" height="17" fill="hsl(170, 48%, 74%)"/><text x="64" y="49">&lt;&amp;…</text></g>
<g><title>日: 10, 10.00%, own 10</title><rect x="90" y="36" width="10" height="17" fill="hsl(110, 48%, 78%)"/></g>
<text x="4" y="67">total 100</text>
</svg>
"##;
    makes(&rt, &around, &WIDE, wanted)
}
