//! What `page/join` takes of page/callers.js, names.js, units.js, data.js, elements.js, gone.js,
//! growing.js, places.js, describe.js. `checks/page_source --write` makes this file.

pub(crate) const TEXT: &str = r##"class Paths {
constructor(nameCount) {
this.nameCount = nameCount;
this.numbers = new Map();
this.parent = [];
this.name = [];
this.depth = [];
this.weight = [];
this.own = [];
}
find(parent, name) {
return this.numbers.get((parent + 1) * this.nameCount + name) ?? -1;
}
add(parent, name, weight, own) {
let path = this.find(parent, name);
if (path < 0) {
path = this.parent.push(parent) - 1;
this.numbers.set((parent + 1) * this.nameCount + name, path);
this.name.push(name);
this.depth.push(parent < 0 ? 0 : this.depth[parent] + 1);
this.weight.push(0);
this.own.push(0);
}
this.weight[path] += weight;
this.own[path] += own;
return path;
}
}
function addCallers(callers, drawing, box) {
let path = -1;
for (let each = box; drawing.depth[each] > 0; each = drawing.parent[each]) {
path = callers.add(path, drawing.name[each], drawing.weight[box], 0);
}
}
function addCallees(callees, drawing, box) {
const open = [];
for (let each = box; each < drawing.end[box]; each++) {
const depth = drawing.depth[each] - drawing.depth[box];
open[depth] = callees.add(depth === 0 ? -1 : open[depth - 1], drawing.name[each], drawing.weight[each], drawing.own[each]);
}
}
function pathsFrom(drawing, name, nameCount) {
const [callers, callees] = [new Paths(nameCount), new Paths(nameCount)];
for (let box = 0; box < drawing.count; ) {
if (drawing.depth[box] === 0 || drawing.name[box] !== name) {
box++;
continue;
}
addCallers(callers, drawing, box);
addCallees(callees, drawing, box);
box = drawing.end[box];
}
return { callers, callees };
}
function weightsThere(paths, others) {
const found = [];
return paths.parent.map((parent, path) => {
const isLost = parent >= 0 && found[parent] < 0;
found[path] = isLost ? -1 : others.find(parent < 0 ? -1 : found[parent], paths.name[path]);
return found[path] < 0 ? 0 : others.weight[found[path]];
});
}
function sideOf(paths, others) {
const { order, start } = heaviestFirst(paths.parent, paths.weight);
const ordered = (column) => Array.from(order, (path) => column[path]);
return {
depth: ordered(paths.depth),
name: ordered(paths.name),
start: ordered(start),
weight: ordered(paths.weight),
own: ordered(paths.own),
other: others && ordered(weightsThere(paths, others)),
};
}
function callersOf(drawing, there, name, nameCount) {
const paths = pathsFrom(drawing, name, nameCount);
const others = there && pathsFrom(there, name, nameCount);
const callers = sideOf(paths.callers, others && others.callers);
const callees = sideOf(paths.callees, others && others.callees);
const joined = (above, below) => below.slice(0, 1).concat(above.slice(1), below.slice(1));
const centreRow = callers.depth.reduce((most, depth) => Math.max(most, depth), 0);
const rows = joined(callers.depth.map((depth) => centreRow - depth), callees.depth.map((depth) => centreRow + depth));
const isCompared = callers.other !== null && callees.other !== null;
return drawingWith({ ...drawing, centre: name, callees: Math.max(1, callers.depth.length) }, {
depth: new Int32Array(joined(callers.depth, callees.depth)),
row: new Int32Array(rows),
name: new Int32Array(joined(callers.name, callees.name)),
start: new Float64Array(joined(callers.start, callees.start)),
weight: new Float64Array(joined(callers.weight, callees.weight)),
own: new Float64Array(joined(callers.own, callees.own)),
other: isCompared ? new Float64Array(joined(callers.other || [], callees.other || [])) : null,
});
}
const UNSEEN = /[\u0000-\u001f\u007f-\u009f\u00ad\u061c\u180e\u200b\u200e\u200f\u2028-\u202e\u2060-\u206f\ufeff\ufff9-\ufffb\ufffe\uffff]/g;
function hexadecimal(character) {
return `[U+${character.charCodeAt(0).toString(16).toUpperCase().padStart(4, '0')}]`;
}
function visible(text) {
return text.replace(UNSEEN, hexadecimal);
}
function beginning(text, most) {
if (text.length <= most) return text;
const last = text.charCodeAt(most - 1);
return text.slice(0, last >= 0xd800 && last < 0xdc00 ? most - 1 : most);
}
function shortened(text, most) {
const first = beginning(text, most);
return visible(first) + (first.length < text.length ? '\u2026' : '');
}
function described(text) {
const most = 1500;
if (text === '') return '(empty name)';
if (text.length <= most) return visible(text);
return `${shortened(text, most)} (${text.length.toLocaleString('en')} characters)`;
}
function nameText(text) {
return shortened(text, 200) || '(empty name)';
}
const SECONDS = { nanoseconds: 1e-9, microseconds: 1e-6, milliseconds: 1e-3, seconds: 1 };
const BYTES = { bytes: 1, kilobytes: 1024, megabytes: 1024 ** 2, gigabytes: 1024 ** 3 };
const TIME_STEPS = [[1, 's'], [1e-3, 'ms'], [1e-6, '\u00b5s'], [1e-9, 'ns']];
const BYTE_STEPS = [[1024 ** 4, 'TiB'], [1024 ** 3, 'GiB'], [1024 ** 2, 'MiB'], [1024, 'KiB'], [1, 'B']];
const WHOLE = new Intl.NumberFormat('en', { maximumFractionDigits: 0 });
const THREE_DIGITS = new Intl.NumberFormat('en', { maximumSignificantDigits: 3 });
const TWO_DIGITS = new Intl.NumberFormat('en', { maximumSignificantDigits: 2 });
function threeDigits(number) {
return (number < 999.5 ? THREE_DIGITS : WHOLE).format(number);
}
function separated(number) {
return WHOLE.format(number);
}
function stepFor(value, steps) {
return steps.find(([step]) => value >= step * 0.9995) || steps[steps.length - 1];
}
function inSteps(weight, unit, steps) {
const [size, sign] = stepFor(weight * unit, steps);
const value = size >= unit ? weight / Math.round(size / unit) : weight * Math.round(unit / size);
return `${threeDigits(value)} ${sign}`;
}
function weighty(sources) {
return sources.filter((source) => source.weight > 0);
}
function commonUnit(sources) {
const units = new Set(weighty(sources).map((source) => source.unit));
return units.size > 1 ? null : [...units].join('');
}
function unitStep(weight, unit) {
const sizes = [SECONDS, BYTES].find((each) => unit && Object.hasOwn(each, unit));
if (unit && sizes) {
const [size, sign] = stepFor(Math.max(1, weight) * sizes[unit], sizes === SECONDS ? TIME_STEPS : BYTE_STEPS);
return { size: Math.round(size / sizes[unit]), sign };
}
return { size: 1, sign: unit && unit !== 'count' ? visible(unit) : '' };
}
function weightText(weight, unit) {
if (unit && Object.hasOwn(SECONDS, unit)) return inSteps(weight, SECONDS[unit], TIME_STEPS);
if (unit && Object.hasOwn(BYTES, unit)) return inSteps(weight, BYTES[unit], BYTE_STEPS);
const about = weight > Number.MAX_SAFE_INTEGER ? 'about ' : '';
return about + separated(weight) + (unit && unit !== 'count' ? ` ${visible(unit)}` : '');
}
function exactText(weight, unit) {
const short = weightText(weight, unit);
const whole = weightText(weight, '');
return unit && !short.startsWith(whole) ? `${short} (${whole} ${unit})` : short;
}
function percentText(part, whole) {
if (!(whole > 0)) return '0%';
const percent = (100 * part) / whole;
return `${(percent < 1 ? TWO_DIGITS : THREE_DIGITS).format(percent)}%`;
}
function changeText(before, after) {
if (before === after) return '\u00b10%';
if (before === 0) return 'new';
if (after === 0) return 'gone';
const percent = (100 * (after - before)) / before;
return `${percent > 0 ? '+' : '\u2212'}${threeDigits(Math.abs(percent))}%`;
}
function differenceText(before, after, unit) {
const sign = after > before ? '+' : after < before ? '\u2212' : '';
return sign + weightText(Math.abs(after - before), unit);
}
function hasLanes(page) {
return page.view === 'chart' && weighty(page.sources).length > 1;
}
function drawingsOf(columns) {
const made = [];
return (number) => {
if (!made[number]) {
made[number] = drawingOf(columns[number], number);
columns[number] = null;
}
return made[number];
};
}
function arranging(drawing, sources, isComparison, nameCount) {
let last = null;
let asked = '';
return ({ drawing: number, callers, heavy, beside }) => {
const base = drawing(number);
if (callers < 0 && !heavy && !beside) return base;
const key = callers < 0 ? `${number} ${beside}` : `${number} callers ${callers}`;
if (last && asked === key) return last;
const there = isComparison ? drawing(1 - number) : null;
const arranged = () => (beside ? besideOf(base, sources) : leftHeavy(base));
last = callers < 0 ? arranged() : callersOf(base, there, callers, nameCount);
asked = key;
return last;
};
}
function pageOf(data) {
let start = 0;
const sources = [];
for (const source of data.sources) {
sources.push({ ...source, start });
start += source.weight;
}
const kept = sources.length > 0 ? start : data.whole;
const drawing = drawingsOf(data.drawings);
return {
view: data.view,
title: data.title,
names: data.names,
sources,
unit: commonUnit(sources),
whole: data.whole,
kept,
isFiltered: data.whole > kept + data.whole * 2 ** -50,
isBelow: data.root_below === true,
isShare: data.share === true,
hasMore: data.more === true,
drawingCount: data.drawings.length,
drawing,
arranged: arranging(drawing, sources, data.view === 'compare', data.names.length),
};
}
function element(id) {
return elementOf(id, HTMLElement);
}
function elementOf(id, kind) {
const found = document.getElementById(id);
if (!(found instanceof kind)) throw new TypeError(`there is no ${id}`);
return found;
}
function input(id) {
return elementOf(id, HTMLInputElement);
}
function button(id) {
return elementOf(id, HTMLButtonElement);
}
function inside(outer, selector) {
const found = outer.querySelector(selector);
if (!(found instanceof HTMLElement)) throw new TypeError(`there is no ${selector}`);
return found;
}
function withText(tag, text) {
const made = document.createElement(tag);
made.textContent = text;
return made;
}
function nameButton(text, action) {
const made = withText('button', text);
made.type = 'button';
made.addEventListener('click', action);
return made;
}
function sayAbout(on, textOf, say) {
for (const kind of ['pointerenter', 'focusin']) on.addEventListener(kind, () => say(textOf()));
for (const kind of ['pointerleave', 'focusout']) on.addEventListener(kind, () => say(''));
}
function showItems(list, texts) {
list.replaceChildren(...texts.map((text) => withText('li', text)));
}
function contextOf(canvas) {
const context = canvas.getContext('2d');
if (!context) throw new TypeError('this browser paints on no canvas');
return context;
}
function afterPaint(action) {
requestAnimationFrame(() => setTimeout(action, 0));
}
const GONE_STEP = 100;
function goneOf(drawing) {
const boxes = [];
let rest = 0;
for (let box = 0; box < drawing.count; ) {
if (!drawing.other || drawing.other[box] > 0) {
box++;
continue;
}
boxes.push(box);
rest += drawing.end[box] - box - 1;
box = drawing.end[box];
}
return { boxes: boxes.sort((one, other) => drawing.weight[other] - drawing.weight[one] || one - other), rest };
}
class GoneList {
constructor(page, onChoose, say) {
this.page = page;
this.onChoose = onChoose;
this.say = say;
this.before = page.drawing(0);
this.list = element('gone-list');
this.more = button('gone-more');
const { boxes, rest } = goneOf(this.before);
this.boxes = boxes;
element('gone-summary').textContent = this.summary(rest);
this.more.addEventListener('click', () => this.showMore());
element('gone').hidden = false;
this.showMore();
}
summary(rest) {
const { before, boxes, page } = this;
if (boxes.length === 0) return 'Each path of the profile before is in the profile after.';
const vanished = boxes.reduce((sum, box) => sum + before.weight[box], 0);
const much = `${weightText(vanished, page.unit)}, ${percentText(vanished, before.total)} of the profile before`;
const others = rest === 0 ? '' : ` ${separated(rest)} more went with ${boxes.length === 1 ? 'it' : 'them'}.`;
return `${separated(boxes.length)} ${boxes.length === 1 ? 'path' : 'paths'}, together ${much}.${others}`;
}
item(box) {
const { before, page } = this;
const path = pathOf(page, before, box);
const weight = before.weight[box];
const callers = path.slice(0, -1).map((name) => `${nameText(name)} \u203a `);
const chosen = nameButton('', () => this.onChoose(box));
const texts = [`${weightText(weight, page.unit)}  `, callers.join(''), nameText(page.names[before.name[box]])];
chosen.append(...texts.map((text) => withText('span', text)));
chosen.title = described(path.join(' \u203a '));
sayAbout(chosen, () => this.exactLine(box), this.say);
const entry = document.createElement('li');
entry.append(chosen);
return entry;
}
exactLine(box) {
const { before, page } = this;
const [weight, own] = [before.weight[box], before.own[box]].map((each) => exactText(each, page.unit));
return [shortened(page.names[before.name[box]], 300) || '(empty name)', `before ${weight}`, `own ${own}`].join(' \u00b7 ');
}
showMore() {
const { boxes, list, more } = this;
const shown = list.children.length;
for (const box of boxes.slice(shown, shown + GONE_STEP)) list.append(this.item(box));
more.hidden = list.children.length >= boxes.length;
}
}
const PAUSE = 2000;
function loadAgain() {
if (document.hidden) document.addEventListener('visibilitychange', loadAgain, { once: true });
else location.reload();
}
function loadAgainSoon() {
let waiting = window.setTimeout(loadAgain, PAUSE);
const wait = () => {
clearTimeout(waiting);
waiting = window.setTimeout(loadAgain, PAUSE);
};
for (const kind of ['keydown', 'pointerdown', 'pointermove', 'wheel']) document.addEventListener(kind, wait, { passive: true });
}
const SHARP_FROM = 3;
const NARROWEST = 0.3;
function placesOf(drawing, row, span, width) {
const { order } = drawing.rows;
const { from, to } = inRow(drawing, row, span);
const seen = spanOfRow(drawing, row, span);
const scale = width / (seen.to - seen.from);
const leftOf = (at) => Math.max(0, (drawing.start[order[at]] - seen.from) * scale);
const rightOf = (at) => Math.min(width, (endOf(drawing, order[at]) - seen.from) * scale);
const isNarrow = (at) => rightOf(at) - leftOf(at) < 1;
const places = [];
let painted = 0;
for (let at = from, next = from; at < to; at = next) {
const left = leftOf(at);
next = at + 1;
if (next < to && isNarrow(at)) {
next = nextPlace(next, to, (each) => leftOf(each) >= Math.floor(left) + 1);
if (!isNarrow(next - 1)) next--;
}
const right = rightOf(next - 1);
const edges = paintedEdges(left, right, painted);
places.push({ at, count: next - at, box: order[at], left, right, ...edges });
painted = edges.end;
}
return places;
}
function paintedEdges(left, right, before) {
const pixelEnd = Math.floor(left) + 1;
if (right - left < SHARP_FROM) {
const begin = Math.max(before, Math.min(left, Math.max(right, pixelEnd) - NARROWEST));
return { begin, end: Math.max(right, Math.min(begin + NARROWEST, pixelEnd)) };
}
const begin = Math.round(left);
return { begin: begin < before ? pixelEnd : begin, end: Math.round(right) - 1 };
}
function placeOver(places, across) {
const pixel = Math.floor(across);
const at = firstPlace(0, places.length, (each) => places[each].end > across);
if (at < places.length && places[at].begin < pixel + 1) return places[at];
const before = places[at - 1];
return before && Math.max(before.end, Math.round(before.right)) > pixel ? before : null;
}
function isJoined(place) {
return place.count > 1;
}
function weighedTogether(drawing, place, weightOf) {
let weight = 0;
for (let at = place.at; at < place.at + place.count; at++) weight += weightOf(drawing.rows.order[at]);
return weight;
}
function detailsOf(seen, box, tell) {
const { page, drawing, span } = seen;
const details = [weightDetail(seen, drawing.row[box], drawing.weight[box], weightInSpan(drawing, box, span), tell)];
if (!isCaller(drawing, box)) details.push(`own ${tell(drawing.own[box], page.unit)}`);
if (drawing.other) details.push(changeDetail(seen, box, tell));
if (isTimeline(page, drawing)) details.push(timeDetail(page, drawing, box));
return details;
}
function weightDetail({ page, drawing, span }, row, weight, inSpan, tell) {
const whole = zoomedWeight(drawing, row, span);
const what = drawing.centre >= 0 && spanOfRow(drawing, row, span).depth === 0 ? shortened(page.names[drawing.centre], 60) : 'what is zoomed';
const zoomed = whole > 0 && whole < drawing.total ? `, ${percentText(inSpan, whole)} of ${what}` : '';
return `${tell(weight, page.unit)}, ${sharesText(page, drawing, weight)}${zoomed}`;
}
function sharesText(page, drawing, weight) {
const share = percentText(weight, drawing.total);
if (!page.isFiltered) return `${share} of the whole`;
const hasWhole = page.view !== 'compare' && drawing.at === undefined;
return `${share} of what is kept${hasWhole ? `, ${percentText(weight, page.whole)} of the whole` : ''}`;
}
function changeDetail({ page, drawing, isShare }, box, tell) {
const weights = bothWeights(drawing, box);
const [when, weight] = drawing.number === 0 ? ['after', weights.after] : ['before', weights.before];
const share = isShare ? `, ${percentText(weight, page.drawing(1 - drawing.number).total)} of its whole` : '';
const { before, after } = comparedOf(page, isShare, weights);
return `${when} ${tell(weight, page.unit)}${share}: ${changeText(before, after)}${isShare ? ' of its share' : ''}`;
}
function timeDetail(page, drawing, box) {
const from = drawing.start[box];
const to = endOf(drawing, box);
const band = bandOf(drawing, drawing.row[box]);
const names = page.sources
.filter((source, number) => (band ? band.source === number : source.start < to && source.start + source.weight > from))
.map((source) => shortened(source.name, 60));
const shown = names.length > 3 ? `${names.slice(0, 3).join(', ')} and ${names.length - 3} more` : names.join(', ');
return `from ${weightText(from, page.unit)} to ${weightText(to, page.unit)}, in ${shown}`;
}
function joinedDetails(seen, place, tell) {
const { drawing, span } = seen;
const weight = weighedTogether(drawing, place, (box) => drawing.weight[box]);
const inSpan = weighedTogether(drawing, place, (box) => weightInSpan(drawing, box, span));
const much = weightDetail(seen, drawing.row[place.box], weight, inSpan, tell);
return [`${separated(place.count)} boxes, each narrower than a pixel`, `together ${much}`];
}
function boxLine(seen, box) {
return [shortened(nameOf(seen.page, seen.drawing, box), 300) || '(empty name)', ...detailsOf(seen, box, exactText)].join(' \u00b7 ');
}
function placeDetails(seen, place) {
if (isJoined(place)) return joinedDetails(seen, place, weightText);
return [described(nameOf(seen.page, seen.drawing, place.box)), ...detailsOf(seen, place.box, weightText)];
}
function placeLine(seen, place) {
return isJoined(place) ? joinedDetails(seen, place, exactText).join(' \u00b7 ') : boxLine(seen, place.box);
}
function placeTitle(seen, place) {
const { page, drawing, span } = seen;
const { box } = place;
if (isJoined(place)) return joinedDetails(seen, place, weightText).join(' \u00b7 ');
const much = weightDetail(seen, drawing.row[box], drawing.weight[box], weightInSpan(drawing, box, span), weightText);
const title = [nameText(nameOf(page, drawing, box)), much];
if (drawing.other) title.push(changeDetail(seen, box, weightText));
return title.join(' \u00b7 ');
}
"##;
