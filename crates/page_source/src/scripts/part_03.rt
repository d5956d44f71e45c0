//! What `page/join` takes of page/focus.js, lists.js, map.js, lettering.js, axis.js, short.js,
//! colours.js. `checks/page_source --write` makes this file.

pub(crate) const TEXT: &str = r##"const NARROWEST_RING = 4;
function placeInRow(drawing, box) {
const { first, order } = drawing.rows;
const row = drawing.row[box];
return firstPlace(first[row], first[row + 1], (at) => order[at] >= box);
}
class Ring {
constructor(picture) {
this.picture = picture;
this.rings = [element('ring-0'), element('ring-1')];
this.used = 0;
this.shown = '';
}
show(view) {
const { picture, rings } = this;
if (view.drawing.count === 0 || !isInSpan(view.drawing, view.state.focus, view.span)) {
for (const ring of rings) ring.hidden = true;
picture.removeAttribute('aria-activedescendant');
return;
}
const text = boxLine(view, view.state.focus);
if (text !== this.shown) {
rings[this.used].hidden = true;
this.used = 1 - this.used;
this.shown = text;
}
const ring = rings[this.used];
this.place(ring, view);
this.label(ring, view, text);
ring.hidden = false;
picture.setAttribute('aria-activedescendant', ring.id);
}
place(ring, view) {
const { drawing, span, state } = view;
const { focus } = state;
const row = drawing.row[focus];
const seen = spanOfRow(drawing, row, span);
const { left, right } = edgesOf(drawing.start[focus], endOf(drawing, focus), seen, this.picture.clientWidth);
ring.style.left = `${left}px`;
ring.style.width = `${Math.max(right - left, NARROWEST_RING)}px`;
ring.style.top = `${rowTop(drawing.rowCount, row, state.below)}px`;
ring.style.height = `${ROW_HEIGHT}px`;
}
label(ring, view, text) {
const { drawing, state } = view;
const row = drawing.row[state.focus];
const [first, stop] = [drawing.rows.first[row], drawing.rows.first[row + 1]];
ring.setAttribute('aria-label', text);
ring.setAttribute('aria-level', String(row - (bandOf(drawing, row)?.row || 0) + 1));
ring.setAttribute('aria-setsize', String(stop - first));
ring.setAttribute('aria-posinset', String(placeInRow(drawing, state.focus) - first + 1));
ring.setAttribute('aria-selected', 'true');
}
}
function focusIn(drawing, { source, box }, asked) {
const inside = { first: box, end: box === 0 ? drawing.count : drawing.end[box] };
const { first, end } = drawing.bands.find((band) => band.source === source) || inside;
return asked >= first && asked < end ? asked : first;
}
function focusedFunction({ drawing, state }) {
if (drawing.count === 0 || isRoot(drawing, state.focus)) return -1;
const name = drawing.name[state.focus];
return name === state.callers ? -1 : name;
}
function boxByKey(view, key) {
const { drawing, span, state } = view;
const box = state.focus;
const row = drawing.row[box];
const { from, to } = inRow(drawing, row, span);
const seen = (at) => (at >= from && at < to ? drawing.rows.order[at] : -1);
if (sourceOf(drawing, box) >= 0 && !/Up|Down/.test(key)) return rootBeside(view, key);
const behind = state.below ? 'ArrowUp' : 'ArrowDown';
if (key === 'ArrowUp' || key === 'ArrowDown') return boxBeside(drawing, box, span, key === behind ? row + 1 : row - 1);
if (key === 'ArrowLeft') return seen(placeInRow(drawing, box) - 1);
if (key === 'ArrowRight') return seen(placeInRow(drawing, box) + 1);
if (key === 'Home') return seen(from);
if (key === 'End') return seen(to - 1);
return -1;
}
function rootBeside({ drawing, span, state }, key) {
const roots = drawing.bands.map(({ first }) => first).filter((each) => isInSpan(drawing, each, span));
const at = roots.indexOf(state.focus);
const wanted = { ArrowLeft: at - 1, ArrowRight: at + 1, Home: 0, End: roots.length - 1 }[key] ?? -1;
return roots[wanted] ?? -1;
}
function boxBeside(drawing, box, span, row) {
const on = drawing.parent[box];
if (on >= 0 && drawing.row[on] === row) return on;
let found = -1;
for (let each = box + 1; each < drawing.end[box]; each = drawing.end[each]) {
if (drawing.row[each] !== row || !isInSpan(drawing, each, span)) continue;
if (found < 0 || drawing.weight[each] > drawing.weight[found]) found = each;
}
return found;
}
const CLOSED_BELOW = 120;
function showLists(width) {
const main = inside(document, 'main');
const divider = element('divider');
element('lists').hidden = width === 0;
divider.hidden = width === 0;
input('listed').checked = width !== 0;
if (width > 0) main.style.setProperty('--lists', `${width}px`);
else main.style.removeProperty('--lists');
divider.setAttribute('aria-valuenow', String(listsWidth()));
}
function listsWidth() {
return element('lists').offsetWidth;
}
function draggedWidth(dragged) {
return dragged < CLOSED_BELOW ? 0 : Math.round(dragged);
}
const BY_WHEEL = 0.002;
const BY_TOUCHPAD = 0.01;
const WHEEL_UNITS = [1, 16, 400];
const KEYS = { '+': 1 / 1.5, '=': 1 / 1.5, '-': 1.5, '<': -0.25, '>': 0.25 };
const SHORTEST_DRAG = 4;
function isMap({ page, view }) {
return isTimeline(page, view.drawing) && view.drawing.count > 0;
}
function widen(viewer, across, times) {
const { left } = viewer.stage.picture.getBoundingClientRect();
const { span, drawing } = viewer.view;
viewer.lookAt(widened(span, drawing.length, (across - left) / viewer.stage.picture.clientWidth, times));
}
function drag(viewer, across, down) {
const { span, drawing } = viewer.view;
const { picture } = viewer.stage;
picture.scrollTop += down;
if (across !== 0) viewer.lookAt(moved(span, drawing.length, across / picture.clientWidth));
}
function isMapKey(key) {
return Object.hasOwn(KEYS, key);
}
function moveByKey(viewer, key) {
if (!isMap(viewer)) return;
const { span, drawing } = viewer.view;
const isMove = key === '<' || key === '>';
viewer.lookAt(isMove ? moved(span, drawing.length, KEYS[key]) : widened(span, drawing.length, 0.5, KEYS[key]));
}
function listenToWheel(viewer) {
const { picture } = viewer.stage;
let [times, across, side, frame] = [1, 0, 0, 0];
const look = () => {
frame = 0;
if (times !== 1) widen(viewer, across, times);
if (side !== 0) drag(viewer, side, 0);
[times, side] = [1, 0];
};
picture.addEventListener('wheel', (event) => {
if (!isMap(viewer)) return;
event.preventDefault();
const unit = WHEEL_UNITS[event.deltaMode];
const [right, down] = event.shiftKey ? [event.deltaX + event.deltaY, 0] : [event.deltaX, event.deltaY];
times *= Math.exp(down * unit * (event.ctrlKey ? BY_TOUCHPAD : BY_WHEEL));
side += right * unit;
across = event.clientX;
if (frame === 0) frame = requestAnimationFrame(look);
}, { passive: false });
}
function handOf(points) {
const [first, last] = [points[0], points[points.length - 1]];
return { x: (first.x + last.x) / 2, y: (first.y + last.y) / 2, apart: Math.max(1, Math.abs(first.x - last.x)) };
}
function listenToDrags(viewer) {
const { picture } = viewer.stage;
const points = new Map();
let isDragged = false;
let frame = 0;
let before = { x: 0, y: 0, apart: 1 };
const look = () => {
frame = 0;
if (points.size === 0) return;
const now = handOf([...points.values()]);
if (points.size > 1) widen(viewer, now.x, before.apart / now.apart);
drag(viewer, before.x - now.x, before.y - now.y);
before = now;
};
picture.addEventListener('pointerdown', (event) => {
if (!isMap(viewer) || event.button !== 0) return;
points.set(event.pointerId, { x: event.clientX, y: event.clientY });
before = handOf([...points.values()]);
isDragged = points.size > 1;
});
picture.addEventListener('pointermove', (event) => {
const point = points.get(event.pointerId);
if (!point) return;
const isShort = Math.hypot(event.clientX - before.x, event.clientY - before.y) < SHORTEST_DRAG;
if (isShort && !isDragged) return;
isDragged = true;
picture.setPointerCapture(event.pointerId);
points.set(event.pointerId, { x: event.clientX, y: event.clientY });
if (frame === 0) frame = requestAnimationFrame(look);
});
for (const kind of ['pointerup', 'pointercancel']) {
picture.addEventListener(kind, (event) => {
if (event instanceof PointerEvent) points.delete(event.pointerId);
if (points.size > 0) before = handOf([...points.values()]);
});
}
}
function listenToMap(viewer) {
viewer.stage.picture.classList.toggle('map', viewer.page.view === 'chart');
listenToWheel(viewer);
listenToDrags(viewer);
}
const FONT_FAMILY = 'ui-monospace, "DejaVu Sans Mono", Menlo, Consolas, monospace';
const FONT = `12px ${FONT_FAMILY}`;
const PAD = 4;
const LONGEST = 1000;
class Lettering {
constructor(names, formsOf) {
this.names = names;
this.formsOf = formsOf;
this.context = contextOf(document.createElement('canvas'));
this.context.font = FONT;
this.letter = this.context.measureText('0').width;
this.shown = new Map();
}
textFor(name, added, width) {
const room = width - 2 * PAD;
if (room < 2 * this.letter) return '';
const forms = this.shownOf(name);
const chosen = firstPlace(0, forms.length, (form) => this.hasRoom(forms[form], room));
if (chosen === forms.length) return this.cut(forms[chosen - 1], room);
const { text } = forms[chosen];
const whole = `${text} ${added}`;
return chosen === 0 && added && this.fits(whole, room) ? whole : text;
}
shownOf(name) {
const known = this.shown.get(name);
if (known) return known;
const shown = this.formsOf(this.names[name]).map((form) => {
const text = visible(beginning(form, LONGEST));
return { text, isPlain: /^[ -~]*$/.test(text), isCut: form.length > LONGEST };
});
this.shown.set(name, shown);
return shown;
}
hasRoom({ text, isPlain, isCut }, room) {
return !isCut && (isPlain ? text.length <= Math.floor(room / this.letter) : this.fits(text, room));
}
fits(text, room) {
return this.context.measureText(text).width <= room;
}
cut({ text, isPlain }, room) {
const kept = isPlain ? text.slice(0, Math.floor(room / this.letter) - 1) : this.cutTo(text, room);
return kept === '' ? '' : `${kept}\u2026`;
}
cutTo(text, room) {
const characters = Array.from(text.slice(0, Math.ceil((4 * room) / this.letter)));
const count = firstPlace(0, characters.length, (each) => !this.fits(`${characters.slice(0, each + 1).join('')}\u2026`, room));
return characters.slice(0, count).join('');
}
}
const LETTER = 7.5;
const ROOM = 24;
function roundStep(number) {
const power = Math.floor(number / 3);
const times = [1, 2, 5][number - 3 * power];
return { step: power < 0 ? times / 10 ** -power : times * 10 ** power, digits: Math.max(0, -power) };
}
function tickText(number, digits, sign) {
const text = number.toLocaleString('en', { minimumFractionDigits: digits, maximumFractionDigits: digits });
return sign === '' ? text : `${text} ${sign}`;
}
function ticksOf(page, drawing, span, width) {
if (!isTimeline(page, drawing) || drawing.count === 0 || width <= 0) return [];
const { size, sign } = unitStep(span.to, page.unit);
const scale = (size * width) / (span.to - span.from);
const longest = (digits) => tickText(span.to / size, digits, sign).length * LETTER;
let number = 3 * Math.floor(Math.log10(ROOM / scale));
while (roundStep(number).step * scale < longest(roundStep(number).digits) + ROOM || roundStep(number).step * size < 1) number++;
const { step, digits } = roundStep(number);
const ticks = [];
for (let each = Math.ceil(span.from / size / step); (each * step - span.from / size) * scale + longest(digits) <= width; each++) {
ticks.push({ left: (each * step - span.from / size) * scale, text: tickText(each * step, digits, sign) });
}
return ticks;
}
const OPENING = '([{<';
const CLOSING = ')]}>';
const LONGEST_NAME = 5000;
const PLACE = / (?:\([^()]*\)|\[[^[\]]*\]|[^ ]+:[0-9]+)$/;
const FILE = / (?:\(([^()]*?)((?::[0-9]+)*)\)|([^ ]+?)(?::[0-9]+)+)$/;
const NUMBERED = /^(?:[0-9]*|(?:func|gowrap|deferwrap)[0-9]+|cold|part|isra|constprop|llvm|\{.*|h[0-9a-f]{16})$/s;
function masked(name) {
const open = [];
const mask = [];
for (let at = 0; at < name.length; at++) {
const isArrow = name[at] === '>' && /[-=]/.test(name[at - 1]);
const closing = isArrow ? -1 : CLOSING.indexOf(name[at]);
const opening = OPENING.indexOf(name[at]);
if (opening >= 0) open.push(opening);
mask.push(open.length > 0 ? OPENING[0] : name[at]);
if (closing >= 0 && open.pop() !== closing) return null;
}
return open.length > 0 ? null : mask.join('');
}
function partsOf(mask) {
const last = Math.max(...[OPENING[0], '/', '.', '::'].map((mark) => mask.lastIndexOf(mark)));
const parts = [];
let [after, begin] = [0, 0];
for (const { 0: separator, index = 0 } of mask.matchAll(/::|[/. ]/g)) {
if (separator === ' ' && index > last) break;
parts.push({ after, begin, end: index });
[after, begin] = [index, index + separator.length];
}
return [...parts, { after, begin, end: mask.length }];
}
function bare(name, mask, { begin, end }) {
let word = begin;
while (word < end && mask[word] === OPENING[0]) word++;
const bracket = mask.slice(0, end).indexOf(OPENING[0], word);
return name.slice(begin, bracket < 0 ? end : bracket).trimEnd();
}
function dissected(name) {
if (name.length > LONGEST_NAME) return null;
const head = name.replace(PLACE, '') || name;
const mask = masked(head);
if (mask === null) return null;
const parts = partsOf(mask);
return { head, mask, parts, named: parts.filter(({ begin, end }, number) => number === 0 || !NUMBERED.test(head.slice(begin, end))) };
}
function barely(head, mask, parts) {
return parts.map((part, number) => (number === 0 ? '' : head.slice(part.after, part.begin)) + bare(head, mask, part)).join('');
}
function formsOf(name) {
const found = dissected(name);
if (!found) return [name];
const { head, mask, parts, named } = found;
const bareFrom = (first) => barely(head, mask, parts.slice(parts.indexOf(first)));
const forms = [name, head, ...named.slice(1, -1).map(({ begin }) => head.slice(begin)), ...named.slice(-2).map(bareFrom)];
return forms.filter((form, number) => number === 0 || (form !== '' && form !== forms[number - 1]));
}
function fileOf(name) {
const [, inside = '', numbers = '', bareFile = ''] = FILE.exec(name) || [];
return bareFile || (numbers !== '' || /[/.]/.test(inside) ? inside : '');
}
function packageOf(name) {
const found = dissected(name);
if (!found) return '';
const { head, mask, parts, named } = found;
const last = parts.indexOf(named[named.length - 1]);
let first = last;
while (first > 0 && head[parts[first].after] !== ' ') first--;
return fileOf(name) || barely(head, mask, parts.slice(first, last));
}
const HUES = 36;
const SHADES = 3;
const CHANGES = 10;
function plainFills(saturation, lightest, step) {
const fills = [];
for (let shade = 0; shade < SHADES; shade++) {
for (let hue = 0; hue < HUES; hue++) {
fills.push(`hsl(${(hue * 360) / HUES}, ${saturation}%, ${lightest + shade * step}%)`);
}
}
return fills;
}
function changeFills(saturation, still, full) {
const fills = [];
for (let change = -CHANGES; change <= CHANGES; change++) {
const much = Math.abs(change) / CHANGES;
const hue = change < 0 ? 213 : 6;
const used = change === 0 ? 0 : saturation * (0.35 + 0.65 * much);
fills.push(`hsl(${hue}, ${used.toFixed(1)}%, ${(still + (full - still) * much).toFixed(1)}%)`);
}
return fills;
}
const LIGHT = {
paper: '#fbfbf9', ink: '#1f2226', line: '#80868f', root: 'hsl(220, 8%, 82%)', dim: 'hsl(220, 8%, 90%)', dimInk: '#555b64',
joined: '#9aa0a8', joinedMatch: '#a982bb', match: 'hsl(285, 48%, 45%)', matchInk: '#ffffff', plain: plainFills(48, 74, 4),
changes: changeFills(74, 88, 68),
};
const DARK = {
paper: '#1b1d20', ink: '#eef0f2', line: '#7c828b', root: 'hsl(220, 6%, 34%)', dim: 'hsl(220, 6%, 22%)', dimInk: '#a9afb8',
joined: '#5d646e', joinedMatch: '#8c589d', match: 'hsl(285, 50%, 68%)', matchInk: '#17121a', plain: plainFills(26, 25, 4),
changes: changeFills(52, 30, 38),
};
function changeOf(before, after) {
return before === after ? 0 : (after - before) / Math.max(before, after);
}
function changeShade(before, after) {
const change = changeOf(before, after);
return Math.sign(change) * Math.ceil(Math.abs(change) * CHANGES) + CHANGES;
}
function nameShade(name) {
let hash = 0;
for (const byte of new TextEncoder().encode(name)) hash = (Math.imul(hash, 31) + byte) >>> 0;
const spread = Math.imul(hash, 2654435769) >>> 0;
return Math.floor(spread / 65536) % (HUES * SHADES);
}
function packageShade(name) {
const hue = nameShade(packageOf(name) || name) % HUES;
return Math.floor(nameShade(name) / HUES) * HUES + hue;
}
function nameShades(names, shadeOf) {
const shades = new Int16Array(names.length).fill(-1);
return (name) => {
if (shades[name] < 0) shades[name] = shadeOf(names[name]);
return shades[name];
};
}
"##;
