//! What `page/join` takes of page/style.css. `checks/page_source --write` makes this file.

pub(crate) const TEXT: &str = r##":root {
color-scheme: light dark;
--paper: #fbfbf9;
--ink: #23262b;
--quiet: #5c626b;
--line: #d5d8dc;
--panel: #f1f2f0;
--accent: #2b5fb3;
--warning: #fff2cf;
font: 14px/1.4 system-ui, sans-serif;
}
@media (prefers-color-scheme: dark) {
:root {
--paper: #1b1d20;
--ink: #e4e6e9;
--quiet: #a2a8b1;
--line: #3b3f45;
--panel: #25282c;
--accent: #8db4f2;
--warning: #4a3d12;
}
}
* { box-sizing: border-box; }
[hidden] { display: none !important; }
body {
background: var(--paper);
color: var(--ink);
display: flex;
flex-direction: column;
height: 100vh;
margin: 0;
padding: 0.6rem 11px;
}
h1 { font-size: 1.15rem; margin: 0; overflow-wrap: anywhere; max-height: 3em; overflow: auto; unicode-bidi: isolate; }
h2 { font-size: 1rem; margin: 0.2rem 0; }
p { margin: 0.1rem 0; }
#summary, #drawing-name { color: var(--quiet); }
#sources ul { margin: 0; max-height: 12em; overflow: auto; padding-left: 1.2rem; }
#sources li { overflow-wrap: anywhere; unicode-bidi: isolate; }
#notices { list-style: none; margin: 0; max-height: 8em; overflow: auto; padding: 0; }
#notices li { background: var(--warning); margin: 0.2rem 0; overflow-wrap: anywhere; padding: 0.2rem 0.5rem; }
#tools { align-items: center; display: flex; flex-wrap: wrap; gap: 0.4rem 0.8rem; padding: 0.4rem 0; position: relative; }
#search { align-items: center; display: flex; flex: 1000 1 45rem; gap: 0.3rem; max-width: 60rem; min-width: 0; }
#find { background: var(--panel); border: 1px solid var(--quiet); flex: 1 1 6rem; min-width: 5rem; padding: 0.15rem 0.3rem; }
#find::placeholder { color: var(--quiet); opacity: 1; }
#find[aria-invalid="true"] { outline: 2px solid #c0392b; }
#by { width: 12.2rem; }
#matched { flex: 0 0 13rem; overflow: hidden; text-overflow: ellipsis; white-space: nowrap; }
#matched.filtered { flex-basis: 17rem; }
#drawing-name { flex: 1 1 8rem; min-width: 8rem; overflow: hidden; text-overflow: ellipsis; unicode-bidi: isolate; white-space: nowrap; width: 0; }
#help dl {
background: var(--panel);
border: 1px solid var(--line);
margin: 0;
padding: 0.5rem 0.8rem;
position: absolute;
right: 0;
z-index: 3;
}
#help dt { font-weight: 600; }
#help dd { margin: 0 0 0.3rem; }
button, input, select { color: inherit; font: inherit; }
button, select { background: var(--panel); border: 1px solid var(--quiet); }
button { padding: 0.1rem 0.4rem; }
button:disabled { opacity: 0.5; }
:focus-visible { outline: 2px solid var(--accent); outline-offset: 1px; }
main { display: flex; flex: 1; min-height: 0; }
#stage { display: flex; flex: 1; flex-direction: column; min-width: 0; }
#lanes { height: 1.6rem; overflow: hidden; position: relative; }
#lanes button {
background: var(--panel);
border: 1px solid var(--line);
bottom: 0;
font-size: 12px;
overflow: hidden;
padding: 0 0.3rem;
position: absolute;
text-align: left;
text-overflow: ellipsis;
top: 0;
unicode-bidi: isolate;
white-space: nowrap;
}
#axis { color: var(--quiet); flex: none; font: 12px/12px ui-monospace, monospace; height: 16px; overflow: hidden; position: relative; }
#axis span { border-left: 1px solid; height: 12px; padding-left: 3px; position: absolute; white-space: nowrap; }
#picture { cursor: default; flex: 1; min-height: 6rem; overflow-x: hidden; overflow-y: auto; position: relative; }
#picture.map { touch-action: pan-y; }
#room { min-height: 100%; position: relative; }
#canvas { display: block; left: 0; position: sticky; top: 0; }
.ring { outline: 1px solid var(--ink); outline-offset: -1px; pointer-events: none; position: absolute; }
#picture:focus .ring { box-shadow: 0 0 0 1px var(--paper); outline: 3px solid var(--accent); outline-offset: -3px; }
#status { color: var(--quiet); height: 1.4em; overflow: hidden; text-overflow: ellipsis; unicode-bidi: isolate; white-space: nowrap; }
#paper { display: none; }
#divider { cursor: col-resize; flex: none; touch-action: none; width: 11px; }
#divider:hover, #divider:active { background: var(--panel); }
#lists {
border-left: 1px solid var(--line);
flex: none;
max-width: calc(100% - 168px);
overflow: auto;
padding-left: 0.8rem;
width: var(--lists, max(32rem, 24vw));
width: var(--lists, max(32rem, round(down, 24vw, 1px)));
}
#lists.compared {
scrollbar-gutter: stable;
width: var(--lists, clamp(32rem, 51vw, 51rem));
width: var(--lists, clamp(32rem, round(down, 51vw, 1px), 51rem));
}
#functions { container-type: inline-size; }
#functions.scrolled { overflow-x: auto; }
#functions h2 { display: inline-block; margin-right: 0.6rem; overflow-wrap: anywhere; }
#functions table { border-collapse: collapse; font-size: 12px; width: 100%; }
#functions thead { background: var(--paper); position: sticky; top: 0; z-index: 1; }
#functions th { padding: 0 0 0 0.4rem; text-align: right; vertical-align: top; white-space: nowrap; }
#functions td { font-variant-numeric: tabular-nums; padding: 0 0 0 0.4rem; text-align: right; vertical-align: baseline; white-space: nowrap; }
#functions td:nth-child(4) { padding-left: 0.9rem; }
#functions :is(th[data-key="name"], td:first-child) {
background: inherit;
left: 0;
max-width: 0;
min-width: 50cqi;
padding: 0;
position: sticky;
text-align: left;
width: 100%;
}
#functions tr { background: var(--paper); }
#functions tr[aria-current] { background: var(--panel); font-weight: 600; }
#functions th button, #lists td button, #gone-list button { background: none; border: 0; padding: 0; text-align: inherit; }
#functions th button { font-weight: 600; }
#functions th[aria-sort] button::before { font-size: 9px; margin-left: -1em; position: absolute; }
#functions th[aria-sort="descending"] button::before { content: "\25bc"; }
#functions th[aria-sort="ascending"] button::before { content: "\25b2"; }
#functions th[data-key="name"][aria-sort] button::before { margin-left: 4.2em; }
@container (max-width: 400px) {
#lists:not(.compared) :is(table, thead, tbody) { display: block; }
#lists:not(.compared) tr { border-bottom: 1px solid var(--line); display: grid; grid-template-columns: 50cqi 25cqi 25cqi; padding-block: 0.1rem; }
#lists:not(.compared) :is(th[data-key="name"], td:first-child) { grid-area: 1 / 1 / span 2; max-width: none; min-width: 0; width: auto; }
#lists:not(.compared) td:nth-child(2) { grid-area: 1 / 2; }
#lists:not(.compared) td:nth-child(3) { color: var(--quiet); grid-area: 2 / 2; }
#lists:not(.compared) td:nth-child(4) { grid-area: 1 / 3; }
#lists:not(.compared) td:nth-child(5) { color: var(--quiet); grid-area: 2 / 3; }
#lists:not(.compared) td button {
-webkit-box-orient: vertical;
-webkit-line-clamp: 2;
display: -webkit-box;
line-height: 1.4;
overflow-wrap: anywhere;
white-space: normal;
}
}
#functions th[scope="colgroup"] { padding-left: 1.1rem; text-align: center; }
#functions th[scope="colgroup"] span { border-bottom: 1px solid var(--line); display: block; }
#functions td span { display: block; line-height: 1.3; }
#functions :is(.before, .after) span + span { color: var(--quiet); }
#functions :is([data-shown^="before"] .change ~ .before, [data-shown^="after"] .change ~ .after, [data-shown="change"] .change) {
padding-left: 1.1rem;
}
.compared tbody tr { border-top: 1px solid var(--line); }
.compared #functions th:not([data-key="name"]) { padding-left: 0.65rem; }
.compared #functions td { padding-block: 0.1rem; vertical-align: top; }
.compared table:not([data-shown~="before"]) .before, .compared table:not([data-shown~="after"]) .after { display: none; }
#lists td button, #gone-list button {
display: block;
font: 12px/1.6 ui-monospace, monospace;
max-width: 100%;
overflow: hidden;
text-overflow: ellipsis;
unicode-bidi: isolate;
white-space: nowrap;
}
#lists.compared td button {
-webkit-box-orient: vertical;
-webkit-line-clamp: 2;
display: -webkit-box;
line-height: 1.3;
overflow-wrap: anywhere;
white-space: normal;
}
#gone-list button { display: flex; white-space: pre; }
#gone-list span { flex: 0 0 auto; overflow: hidden; text-overflow: ellipsis; unicode-bidi: isolate; }
#gone-list span:nth-child(2) { flex-shrink: 1; }
#gone-list span:last-child { max-width: 75%; }
#lists td button:hover, #gone-list button:hover { text-decoration: underline; }
#gone { border-bottom: 1px solid var(--line); margin-bottom: 0.5rem; padding-bottom: 0.5rem; }
#gone-list { list-style: none; margin: 0; max-height: 40vh; overflow: auto; padding: 0; }
#tip {
background: var(--panel);
border: 1px solid var(--line);
box-shadow: 0 2px 8px rgb(0 0 0 / 25%);
left: 0;
max-height: 60vh;
max-width: min(40rem, 90vw);
overflow: hidden;
padding: 0.3rem 0.6rem;
pointer-events: none;
position: fixed;
top: 0;
z-index: 4;
}
#tip p { overflow-wrap: anywhere; unicode-bidi: isolate; }
#tip p:first-child { font: 12px/1.4 ui-monospace, monospace; font-weight: 600; }
@media (max-width: 60rem) {
body { height: auto; min-height: 100vh; padding-bottom: 2rem; }
main { flex-direction: column; gap: 11px; }
#stage { flex: none; }
#divider { display: none; }
#search { flex-wrap: wrap; }
#status { background: var(--paper); bottom: 0; left: 0; margin: 0; padding: 0 11px; position: fixed; right: 0; z-index: 2; }
#picture { flex: none; height: clamp(12rem, var(--rows) * 18px, 70vh); }
#lists, #lists.compared { border-left: 0; max-width: none; padding: 0; scrollbar-gutter: auto; width: auto; }
}
@media (max-width: 40rem) {
body { padding-bottom: 6.2rem; }
#matched, #matched.filtered { flex: 1 1 100%; height: 1.4em; }
#status { border-top: 1px solid var(--line); height: 5.7em; overflow: auto; overflow-wrap: anywhere; white-space: normal; }
}
@media (max-width: 30rem) {
#find { flex-basis: 100%; }
}
"##;
