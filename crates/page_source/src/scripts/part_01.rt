//! What `page/join` takes of page/bisect.js, columns.js, rows.js, drawing.js, spans.js, search.js,
//! view.js, sums.js, beside.js, heaviest.js. `checks/page_source --write` makes this file.

pub(crate) const TEXT: &str = r##"function firstPlace(low, high, holds) {
while (low < high) {
const middle = (low + high) >>> 1;
if (holds(middle)) high = middle;
else low = middle + 1;
}
return low;
}
function nextPlace(low, high, holds) {
let step = 1;
while (low + step < high && !holds(low + step)) {
low += step;
step *= 2;
}
return firstPlace(low, Math.min(low + step, high), holds);
}
function without(weight, part) {
return Math.max(0, weight - part);
}
function boxesTold({ gap, rest, tail, up }) {
const count = up.length;
const depth = new Int32Array(count);
const start = new Float64Array(count);
const weight = new Float64Array(count);
const own = new Float64Array(count);
let [depthBefore, startBefore, weightBefore] = [0, 0, 0];
for (let box = 0; box < count; box++) {
const isOn = up[box] === 0;
depth[box] = depthBefore + 1 - up[box];
start[box] = startBefore + (isOn ? 0 : weightBefore) + gap[box];
weight[box] = isOn ? without(weightBefore, gap[box] + tail[box]) : tail[box];
own[box] = up[box + 1] === 0 ? rest[box] : without(weight[box], rest[box]);
[depthBefore, startBefore, weightBefore] = [depth[box], start[box], weight[box]];
}
return { depth, start, weight, own };
}
const ROW_HEIGHT = 18;
function rowsOf(depths, rowCount, boxes) {
const first = new Int32Array(rowCount + 1);
for (const box of boxes) first[depths[box] + 1]++;
for (let row = 0; row < rowCount; row++) first[row + 1] += first[row];
const next = first.slice();
const order = new Int32Array(boxes.length);
for (const box of boxes) order[next[depths[box]]++] = box;
return { first, order };
}
function rowTop(rowCount, row, below) {
return (below ? rowCount - 1 - row : row) * ROW_HEIGHT;
}
function rowAt(rowCount, top, below) {
const place = Math.floor(top / ROW_HEIGHT);
return below ? rowCount - 1 - place : place;
}
function upTo(count) {
const numbers = new Int32Array(count);
for (let number = 0; number < count; number++) numbers[number] = number;
return numbers;
}
function nestingOf(depths) {
const parent = new Int32Array(depths.length);
const end = new Int32Array(depths.length).fill(depths.length);
const open = [];
let opened = 0;
depths.forEach((depth, box) => {
while (opened > depth) end[open[--opened]] = box;
parent[box] = depth === 0 ? -1 : open[depth - 1];
open[opened++] = box;
});
return { parent, end };
}
function drawingWith(about, columns) {
const { depth, row } = columns;
const rowCount = row.reduce((most, each) => Math.max(most, each + 1), 0);
const rows = rowsOf(row, rowCount, upTo(row.length));
return { ...about, ...columns, count: depth.length, rowCount, rows, ...nestingOf(depth) };
}
function drawingOf(columns, number) {
const { at, counts, total, least, left_out: leftOut } = columns;
const { depth, start, weight, own } = boxesTold(columns);
return drawingWith({ number, centre: -1, callees: 1, bands: [], at, counts, total, length: total, least, leftOut }, {
depth,
row: depth,
name: new Int32Array(columns.name),
start,
weight,
own,
other: columns.other ? new Float64Array(columns.other) : null,
});
}
function isRoot(drawing, box) {
return drawing.depth[box] === 0 && drawing.centre < 0;
}
function isCaller(drawing, box) {
return box > 0 && box < drawing.callees;
}
function isBeside(drawing) {
return drawing.bands.length > 0;
}
function bandOf({ bands }, row) {
return bands[firstPlace(0, bands.length, (each) => bands[each].row > row) - 1];
}
function sourceOf(drawing, box) {
const band = isRoot(drawing, box) ? bandOf(drawing, drawing.row[box]) : undefined;
return band ? band.source : -1;
}
function nameOf(page, drawing, box) {
const source = sourceOf(drawing, box);
return source < 0 ? page.names[drawing.name[box]] : page.sources[source].name;
}
function timeOf(drawing, box) {
const band = bandOf(drawing, drawing.row[box]);
return drawing.start[box] + (band ? band.start : 0);
}
function isTimeline(page, drawing) {
return page.view === 'chart' && drawing.centre < 0;
}
function endOf(drawing, box) {
return drawing.start[box] + drawing.weight[box];
}
function pathOf(page, drawing, box) {
const path = [];
for (let each = box; each >= 0 && drawing.depth[each] > 0; each = drawing.parent[each]) path.push(page.names[drawing.name[each]]);
return path.reverse();
}
function beginningsOf(drawing, time, isUp) {
const { bands } = drawing;
const band = bands[Math.max(0, firstPlace(0, bands.length, (each) => bands[each].start > time) - 1)];
if (band) return { first: band.first + 1, end: band.end, zero: band.start };
return isUp ? { first: 1, end: drawing.callees, zero: 0 } : { first: drawing.callees, end: drawing.count, zero: 0 };
}
function boxAt(page, drawing, path, time, isUp) {
let found = 0;
let { first, end, zero } = beginningsOf(drawing, time, isUp);
const start = time - zero;
for (const name of path) {
let fallback = -1;
let exact = -1;
for (let box = first; box < end && exact < 0; box = drawing.end[box]) {
if (page.names[drawing.name[box]] !== name) continue;
if (fallback < 0) fallback = box;
if (start >= drawing.start[box] && start < endOf(drawing, box)) exact = box;
}
const next = exact >= 0 ? exact : fallback;
if (next < 0) break;
found = next;
[first, end] = [next + 1, drawing.end[next]];
}
return found;
}
function comparedOf(page, isShare, weights) {
const [before, after] = isShare ? [0, 1].map((number) => page.drawing(number).total) : [0, 0];
if (before === 0 || after === 0) return weights;
return { before: weights.before * after, after: weights.after * before };
}
function bothWeights(drawing, box) {
const here = drawing.weight[box];
const there = drawing.other ? drawing.other[box] : here;
return drawing.number === 0 ? { before: here, after: there } : { before: there, after: here };
}
function spanOf(page, drawing, state) {
const { source, box, from, to } = state;
const isAside = isBeside(drawing);
const band = drawing.bands.find((each) => each.source === source);
if (band) return { from: 0, to: band.weight, depth: 0, row: band.row };
if (source >= 0) {
const { start, weight } = page.sources[source];
return { from: start, to: start + weight, depth: 0, row: 0 };
}
if (drawing.count === 0) return { from: 0, to: 1, depth: 0, row: 0 };
if (from >= 0) return { from, to, depth: 0, row: isAside ? -1 : 0 };
if (isAside && box === 0) return { from: 0, to: drawing.length, depth: 0, row: -1 };
return { from: drawing.start[box], to: endOf(drawing, box), depth: drawing.depth[box], row: drawing.row[box] };
}
function partOf(from, width, total) {
const wide = Math.min(total, Math.max(1, width));
const begin = Math.min(total - wide, Math.max(0, from));
const digits = total < 1e9 ? 1000 : 1;
return { from: Math.round(begin * digits) / digits, to: Math.round((begin + wide) * digits) / digits };
}
function widened({ from, to }, total, place, times) {
const width = Math.min(total, Math.max(1, (to - from) * times));
return partOf(from + place * (to - from - width), width, total);
}
function moved({ from, to }, total, widths) {
return partOf(from + widths * (to - from), to - from, total);
}
function zoomedBand(drawing, span) {
return span.row < 0 ? undefined : bandOf(drawing, span.row);
}
function spanOfRow(drawing, row, span) {
if (isBeside(drawing)) return span.depth === 0 || bandOf(drawing, row) === zoomedBand(drawing, span) ? span : { ...span, depth: 0 };
if (drawing.centre < 0 || drawing.count === 0) return span;
const centre = drawing.row[0];
const isSameSide = (row - centre) * (span.row - centre) > 0;
return isSameSide ? span : { from: 0, to: drawing.weight[0], depth: 0, row: centre };
}
function isInSpan(drawing, box, span) {
const { from, to } = spanOfRow(drawing, drawing.row[box], span);
return drawing.start[box] < to && endOf(drawing, box) > from;
}
function weightInSpan(drawing, box, span) {
const { from, to } = spanOfRow(drawing, drawing.row[box], span);
return Math.max(0, Math.min(endOf(drawing, box), to) - Math.max(drawing.start[box], from));
}
function zoomedBoxes(drawing, span) {
return zoomedBand(drawing, span) || { first: 0, end: drawing.count };
}
function zoomedWeight(drawing, row, span) {
const band = zoomedBand(drawing, span);
if (band && band !== bandOf(drawing, row)) return 0;
const { from, to } = spanOfRow(drawing, row, span);
if (band || !isBeside(drawing)) return to - from;
return drawing.bands.reduce((sum, { first }) => sum + weightInSpan(drawing, first, span), 0);
}
function inRow(drawing, row, span) {
const { first, order } = drawing.rows;
const seen = spanOfRow(drawing, row, span);
const from = firstPlace(first[row], first[row + 1], (at) => endOf(drawing, order[at]) > seen.from);
return { from, to: firstPlace(from, first[row + 1], (at) => drawing.start[order[at]] >= seen.to) };
}
function rowsInSpan(drawing, span) {
const isEmpty = (row) => {
const { from, to } = inRow(drawing, row, span);
return from === to;
};
const { row, rowCount } = zoomedBand(drawing, span) || { row: 0, rowCount: drawing.rowCount };
let [first, end] = [row, row + rowCount];
while (first < end && isEmpty(first)) first++;
while (end > first && isEmpty(end - 1)) end--;
return { first, end };
}
function edgesOf(from, to, span, width) {
const scale = width / (span.to - span.from);
const left = Math.min(width, Math.max(0, (from - span.from) * scale));
const right = Math.max(0, Math.min(width, (to - span.from) * scale));
return { left, right };
}
function lanesOf(page, drawing, span, width) {
if (!isTimeline(page, drawing) || isBeside(drawing)) return [];
return page.sources
.map((source, number) => ({ source, number, ...edgesOf(source.start, source.start + source.weight, span, width) }))
.filter(({ left, right }) => right > left);
}
function isEitherCase(find, by) {
return by === 'text' && find === find.toLowerCase();
}
function nameTest(find, by) {
if (by === 'name') return (name) => name === find;
const text = by === 'text' ? find.replace(/[\\^$.*+?()[\]{}|/]/g, '\\$&') : find;
const flags = isEitherCase(find, by) ? 'iu' : 'u';
try {
const expression = new RegExp(text, flags);
return (name) => expression.test(name);
} catch {
return null;
}
}
function nameMatcher(names) {
let asked = '';
let matching = null;
return (find, by) => {
const key = `${by} ${find}`;
if (key !== asked) {
const test = nameTest(find, by);
asked = key;
matching = test && Uint8Array.from(names, (name) => Number(test(name)));
}
return matching;
};
}
function matchesOf(drawing, matching) {
const boxes = [];
let weight = 0;
let covered = 0;
for (let box = 0; box < drawing.count; box++) {
if (!matching[drawing.name[box]] || isRoot(drawing, box)) continue;
boxes.push(box);
if (box < covered) continue;
covered = drawing.end[box];
weight += drawing.weight[box];
}
return {
boxes,
weight,
rows: rowsOf(drawing.row, drawing.rowCount, boxes),
isMatch: (box) => !isRoot(drawing, box) && matching[drawing.name[box]] === 1,
};
}
function matchesIn(matches, drawing, place) {
const { first, order } = matches.rows;
const row = drawing.row[place.box];
const firstFrom = (box) => firstPlace(first[row], first[row + 1], (at) => order[at] >= box);
return firstFrom(drawing.rows.order[place.at + place.count - 1] + 1) - firstFrom(place.box);
}
function neighbourMatch(matches, box, isForward) {
const { boxes } = matches;
if (boxes.length === 0) return -1;
if (isForward) return boxes[firstPlace(0, boxes.length, (place) => boxes[place] > box) % boxes.length];
const place = firstPlace(0, boxes.length, (each) => boxes[each] >= box);
return boxes[(place + boxes.length - 1) % boxes.length];
}
function neighbourByWeight(matches, drawing, box, isForward) {
const { boxes, isMatch } = matches;
if (boxes.length === 0) return -1;
const compare = (one, other) => drawing.weight[other] - drawing.weight[one] || one - other;
const heaviest = boxes.slice().sort(compare);
const at = isMatch(box) ? firstPlace(0, heaviest.length, (place) => compare(heaviest[place], box) >= 0) : isForward ? -1 : 0;
return heaviest[(at + (isForward ? 1 : -1) + heaviest.length) % heaviest.length];
}
function searched(matching, drawing, state, old) {
if (state.find === '') return { matches: null, isRefused: false };
const isSame = old && old.drawing === drawing && old.state.find === state.find && old.state.by === state.by;
if (isSame && old.matches) return { matches: old.matches, isRefused: false };
const names = matching(state.find, state.by);
return { matches: names && matchesOf(drawing, names), isRefused: !names };
}
function viewOf(page, matching, state, old) {
const drawing = page.arranged(state);
const isShare = state.share;
return { page, state, drawing, span: spanOf(page, drawing, state), isShare, ...searched(matching, drawing, state, old) };
}
const UNZOOMED = { source: -1, box: 0, from: -1, to: -1 };
function isZoomed({ state }) {
return state.box > 0 || state.source >= 0 || state.from >= 0;
}
function wholeOf(view) {
if (view.state.callers < 0) return view;
const { page, isShare } = view;
const state = { ...view.state, callers: -1, heavy: false, beside: false, ...UNZOOMED, focus: 0 };
const drawing = page.drawing(state.drawing);
return { page, state, drawing, span: spanOf(page, drawing, state), isShare, matches: null, isRefused: view.isRefused };
}
function isOther(old, view) {
const isSamePart = old.drawing === view.drawing && old.span.from === view.span.from && old.span.to === view.span.to && old.span.depth === view.span.depth;
return !isSamePart || old.matches !== view.matches || old.isShare !== view.isShare;
}
function isElsewhere(old, { drawing, state }) {
const isOtherBand = isBeside(drawing) && old.state.source !== state.source;
return isOtherBand || old.state.box !== state.box || old.drawing !== drawing;
}
function ownInSpan(drawing, box, span) {
const own = drawing.own[box];
let rest = weightInSpan(drawing, box, span);
if (rest === drawing.weight[box]) return own;
for (let each = box + 1; each < drawing.end[box]; each = drawing.end[each]) rest -= weightInSpan(drawing, each, span);
return Math.min(own, rest);
}
function sumsOf(drawing, nameCount, span) {
const own = new Float64Array(nameCount);
const total = new Float64Array(nameCount);
const covered = new Int32Array(nameCount);
const top = Math.max(1, span.depth);
const { first, end } = zoomedBoxes(drawing, span);
for (let box = first; box < end; box++) {
if (drawing.depth[box] < top || !isInSpan(drawing, box, span)) continue;
const name = drawing.name[box];
own[name] += ownInSpan(drawing, box, span);
if (box < covered[name]) continue;
covered[name] = drawing.end[box];
total[name] += weightInSpan(drawing, box, span);
}
return { own, total };
}
function zoomedPart(view) {
const { page, drawing, span } = view;
const whole = isZoomed(view) ? zoomedWeight(drawing, span.row, span) : drawing.total;
return { ...sumsOf(drawing, page.names.length, span), whole };
}
function boxesIn(chart, { from, to }) {
const first = firstPlace(0, chart.count, (box) => chart.start[box] >= from);
const boxes = [];
for (let box = first - 1; box >= 0; box = chart.parent[box]) {
if (endOf(chart, box) > from) boxes.unshift(box);
}
for (let box = first; box < chart.count && chart.start[box] < to; box++) boxes.push(box);
return boxes;
}
function addPieces(pieces, chart, boxes, span, row) {
let rowCount = 0;
for (const box of boxes) {
const depth = chart.depth[box];
pieces.depth.push(depth);
pieces.row.push(row + depth);
pieces.name.push(chart.name[box]);
pieces.start.push(Math.max(0, chart.start[box] - span.from));
pieces.weight.push(weightInSpan(chart, box, span));
pieces.own.push(ownInSpan(chart, box, span));
rowCount = Math.max(rowCount, depth + 1);
}
return rowCount;
}
function besideOf(chart, sources) {
const pieces = { depth: [], row: [], name: [], start: [], weight: [], own: [] };
const bands = [];
let row = 0;
for (const [source, { start, weight }] of sources.entries()) {
const span = { from: start, to: start + weight, depth: 0, row: 0 };
const boxes = weight > 0 ? boxesIn(chart, span) : [];
if (boxes.length === 0) continue;
const first = pieces.depth.length;
const rowCount = addPieces(pieces, chart, boxes, span, row);
bands.push({ source, weight, start, first, end: first + boxes.length, row, rowCount });
row += rowCount;
}
const length = bands.reduce((most, { weight }) => Math.max(most, weight), 0);
return drawingWith({ ...chart, bands, length }, {
depth: new Int32Array(pieces.depth),
row: new Int32Array(pieces.row),
name: new Int32Array(pieces.name),
start: new Float64Array(pieces.start),
weight: new Float64Array(pieces.weight),
own: new Float64Array(pieces.own),
other: null,
});
}
function heaviestFirst(parent, weight) {
const count = parent.length;
const callers = new Int32Array(count);
for (let box = 0; box < count; box++) callers[box] = parent[box] + 1;
const { first, order: callees } = rowsOf(callers, count + 1, upTo(count));
const [order, start] = [new Int32Array(count), new Float64Array(count)];
const open = [];
const openOn = (box) => {
const on = callees.subarray(first[box + 1], first[box + 2]);
if (on.length > 1) on.sort((one, other) => weight[other] - weight[one] || one - other);
let at = box < 0 ? 0 : start[box];
for (const each of on) {
start[each] = at;
at += weight[each];
}
for (let each = on.length - 1; each >= 0; each--) open.push(on[each]);
};
openOn(-1);
for (let made = 0; made < count; made++) {
order[made] = Number(open.pop());
openOn(order[made]);
}
return { order, start };
}
function leftHeavy(drawing) {
const { order, start } = heaviestFirst(drawing.parent, drawing.weight);
const ordered = (column, made) => {
for (let at = 0; at < order.length; at++) made[at] = column[order[at]];
return made;
};
const weights = (column) => ordered(column, new Float64Array(order.length));
const depth = ordered(drawing.depth, new Int32Array(order.length));
return drawingWith(drawing, {
depth,
row: depth,
name: ordered(drawing.name, new Int32Array(order.length)),
start: weights(start),
weight: weights(drawing.weight),
own: weights(drawing.own),
other: drawing.other && weights(drawing.other),
});
}
"##;
