//! What `page/join` takes of page/page.html. `checks/page_source --write` makes this file.

pub(crate) const TEXT: &str = r##"</style>
</head>
<body>
<header>
<h1 id="title">flamecollect</h1>
<p id="summary">The data is being read. If this stays, the document is cut off or JavaScript is turned off.</p>
<ul id="notices"></ul>
<details id="sources" hidden><summary>Sources</summary><ul></ul></details>
</header>
<div id="tools" role="toolbar" aria-label="Tools" hidden>
<form id="search" role="search">
<input id="find" type="search" placeholder="Search" aria-label="Search for" autocomplete="off" spellcheck="false">
<select id="by" aria-label="What is searched for">
<option value="text">in names, any case</option>
<option value="name">whole name</option>
<option value="regexp">regular expression</option>
</select>
<select id="order" aria-label="In what order matches come">
<option value="place">by place</option>
<option value="weight">by weight</option>
</select>
<button type="button" id="previous" title="Previous match (Shift+Enter)" aria-label="Previous match">&#x25b2;</button>
<button type="submit" id="next" title="Next match (Enter)" aria-label="Next match">&#x25bc;</button>
<output id="matched" for="find by"></output>
</form>
<button type="button" id="back" title="Back (Escape)">Back</button>
<button type="button" id="callers" title="What calls the focused function, and what it calls (c)">Callers</button>
<label><input type="checkbox" id="below"> Root below</label>
<label id="heavy-label" title="The heaviest of what a function calls stands first" hidden><input type="checkbox" id="heavy"> Left heavy</label>
<label id="beside-label" title="Each source from 0 on, in rows of its own" hidden><input type="checkbox" id="beside"> Side by side</label>
<label id="by-name-label" title="Each name has a hue of its own, and not its package: what stands before the last separator" hidden><input type="checkbox" id="by-name"> Colours by name</label>
<label><input type="checkbox" id="listed" checked> Lists</label>
<label id="snapshot-label" hidden>Snapshot <input type="range" id="snapshot" min="0" step="1"></label>
<label id="before-label" hidden><input type="checkbox" id="before"> Show before</label>
<label id="share-label" title="Compare shares of each profile, and not weights" hidden><input type="checkbox" id="share"> Shares</label>
<span class="group">
<button type="button" id="save-svg">Save SVG</button>
<button type="button" id="save-png">Save PNG</button>
<button type="button" id="print">Print</button>
</span>
<details id="help"><summary>Keys</summary>
<dl>
<dt>Arrow keys</dt><dd>to the caller, to what it calls, to the neighbours</dd>
<dt>Home, End</dt><dd>to the first and the last box of the row</dd>
<dt>Enter, click</dt><dd>zoom to the box; of two taps the first names it</dd>
<dt>+, -, wheel, pinch</dt><dd>in a chart, closer and further away</dd>
<dt>&lt;, &gt;, drag</dt><dd>in a chart, to what was before and after</dd>
<dt>c, click on a name in the table</dt><dd>what calls the function, and what it calls</dd>
<dt>Escape</dt><dd>back</dd>
<dt>/</dt><dd>search; then Enter and Shift+Enter for the next and the previous match</dd>
</dl>
</details>
<output id="drawing-name"></output>
</div>
<main hidden>
<section id="stage" aria-label="Picture">
<div id="lanes" role="group" aria-label="Sources" hidden></div>
<div id="axis" aria-hidden="true" hidden></div>
<div id="picture" tabindex="0" role="tree" aria-label="Boxes" aria-describedby="status">
<div id="room"><canvas id="canvas" aria-hidden="true"></canvas>
<div id="ring-0" class="ring" role="treeitem" hidden></div><div id="ring-1" class="ring" role="treeitem" hidden></div></div>
</div>
<p id="status"></p>
<div id="paper" aria-hidden="true"></div>
</section>
<div id="divider" role="separator" tabindex="0" aria-controls="lists" aria-label="Width of the lists" aria-orientation="vertical"
title="Drag to make the lists wider, or to close them"></div>
<aside id="lists" aria-label="Lists">
<section id="gone" hidden aria-labelledby="gone-title">
<h2 id="gone-title">Only before</h2>
<p id="gone-summary"></p>
<ul id="gone-list"></ul>
<button type="button" id="gone-more" hidden>Show more</button>
</section>
<section id="functions" aria-labelledby="functions-title">
<h2 id="functions-title">Functions</h2>
<table aria-labelledby="functions-title">
<thead>
<tr>
<th scope="col" data-key="name"><button type="button">Name</button></th>
<th scope="col" colspan="2" data-key="own"><button type="button">Own</button></th>
<th scope="col" colspan="2" data-key="total"><button type="button">Total</button></th>
</tr>
<tr class="of-comparison">
<th scope="col" rowspan="3" data-key="name"><button type="button">Name</button></th>
<th scope="colgroup" colspan="3"><span>Own</span></th>
<th scope="colgroup" colspan="3"><span>Total</span></th>
</tr>
<tr class="of-comparison">
<th scope="col" class="before" rowspan="2" data-key="own-before"><button type="button" aria-label="own before">Before</button></th>
<th scope="col" class="after" rowspan="2" data-key="own-after"><button type="button" aria-label="own after">After</button></th>
<th scope="col" class="change" data-key="own-change"><button type="button" aria-label="own change">Change</button></th>
<th scope="col" class="before" rowspan="2" data-key="total-before"><button type="button" aria-label="total before">Before</button></th>
<th scope="col" class="after" rowspan="2" data-key="total-after"><button type="button" aria-label="total after">After</button></th>
<th scope="col" class="change" data-key="total-change"><button type="button" aria-label="total change">Change</button></th>
</tr>
<tr class="of-comparison">
<th scope="col" class="change" data-key="own-percent"><button type="button" aria-label="own change in %">%</button></th>
<th scope="col" class="change" data-key="total-percent"><button type="button" aria-label="total change in %">%</button></th>
</tr>
</thead>
<tbody></tbody>
</table>
<button type="button" id="functions-more" hidden>Show more</button>
</section>
</aside>
</main>
<div id="tip" role="tooltip" hidden></div>
<script type="application/json" id="data">"##;
