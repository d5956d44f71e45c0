//! What `page/join` takes of page/address.js, compared.js, functions.js, lanes.js, stage.js,
//! tip.js. `checks/page_source --write` makes this file.

pub(crate) const TEXT: &str = r##"const LONGEST_PATH = 4000;
const LONGEST_GROWING_PATH = 400000;
const WIDEST_LISTS = 10000;
function decoded(text) {
try {
return decodeURIComponent(text);
} catch {
return text;
}
}
function encoded(text) {
return encodeURIComponent(new TextDecoder('utf-8', { ignoreBOM: true }).decode(new TextEncoder().encode(text)));
}
function longestPath(page) {
return page.hasMore ? LONGEST_GROWING_PATH : LONGEST_PATH;
}
function zoomWords(page, drawing, state) {
if (state.source >= 0) return [`source=${state.source}`];
if (state.from >= 0) return [`from=${state.from}`, `to=${state.to}`];
if (state.box === 0) return [];
const path = pathOf(page, drawing, state.box);
const length = path.reduce((sum, name) => sum + name.length, 0);
const longest = longestPath(page);
const zoom = length > longest ? '' : path.map(encoded).join('/');
if (length > longest || zoom.length > 3 * longest) return [`box=${state.box}`];
if (isCaller(drawing, state.box)) return [`up=${zoom}`];
return isTimeline(page, drawing) ? [`zoom=${zoom}`, `start=${timeOf(drawing, state.box)}`] : [`zoom=${zoom}`];
}
function callersWord(page, name) {
const text = page.names[name];
return text.length > longestPath(page) ? `function=${name}` : `callers=${encoded(text)}`;
}
function fragmentOf(page, state) {
const words = zoomWords(page, page.arranged(state), state);
if (state.callers >= 0) words.unshift(callersWord(page, state.callers));
if (state.find !== '') words.push(`find=${encoded(state.find)}`);
if (state.find !== '' && state.by !== 'text') words.push(`by=${state.by}`);
if (state.order !== 'place') words.push(`order=${state.order}`);
if (state.drawing !== page.drawingCount - 1) words.push(`drawing=${state.drawing}`);
if (state.below !== page.isBelow) words.push(state.below ? 'root=below' : 'root=above');
if (state.lists >= 0) words.push(`lists=${state.lists}`);
if (state.share !== page.isShare) words.push(state.share ? 'share=1' : 'share=0');
if (state.heavy) words.push('heavy=1');
if (state.beside) words.push('beside=1');
if (state.byName) words.push('colours=name');
return `#${words.join('&')}`;
}
function partOfWords(words, length) {
const [from, to] = ['from', 'to'].map((key) => (/^[0-9]{1,15}(\.[0-9]{1,3})?$/.test(words.get(key) || '') ? Number(words.get(key)) : -1));
return from >= 0 && to - from > 0.999 && to <= length ? { from, to } : { from: -1, to: -1 };
}
function wholeNumber(text, limit) {
return /^[0-9]{1,15}$/.test(text || '') && Number(text) < limit ? Number(text) : -1;
}
function wordsOf(fragment) {
const words = new Map();
for (const word of fragment.replace(/^#/, '').split('&')) {
const place = word.indexOf('=');
if (place > 0) words.set(word.slice(0, place), word.slice(place + 1));
}
return words;
}
function wordsOfStep(fragment, made, now) {
const words = wordsOf(fragment);
const [wordsMade, wordsNow] = [wordsOf(made), wordsOf(now)];
for (const key of ['find', 'by', 'order', 'drawing', 'root', 'lists', 'share', 'heavy', 'beside', 'colours']) {
const kept = wordsNow.get(key);
if (wordsMade.get(key) === kept) continue;
if (['drawing', 'heavy', 'beside'].includes(key)) words.delete('box');
if (key === 'beside') words.delete('from');
if (kept === undefined) words.delete(key);
else words.set(key, kept);
}
return words;
}
function boxOfWords(page, drawing, words) {
const isUp = words.has('up');
const zoom = words.get(isUp ? 'up' : 'zoom');
if (zoom === undefined) return words.has('box') ? wholeNumber(words.get('box'), drawing.count) : 0;
const path = zoom.split('/').map(decoded);
const box = boxAt(page, drawing, path, Number(words.get('start') || -1), isUp);
return drawing.depth[box] === path.length ? box : -1;
}
function choiceOfWords(page, words) {
const number = wholeNumber(words.get('drawing'), page.drawingCount);
const drawing = number >= 0 ? number : page.drawingCount - 1;
const heavy = page.view !== 'chart' && words.get('heavy') === '1';
const choice = { drawing, callers: -1, heavy, beside: hasLanes(page) && words.get('beside') === '1' };
const name = words.get('callers');
if (name === undefined && !words.has('function')) return { choice, isLost: false };
const callers = name === undefined ? wholeNumber(words.get('function'), page.names.length) : page.names.indexOf(decoded(name));
const isLost = callers < 0 || page.arranged({ ...choice, callers }).count === 0;
return { choice: isLost ? choice : { ...choice, callers }, isLost };
}
function linkedOf(page, words) {
const { choice, isLost } = choiceOfWords(page, words);
const isSourced = page.view === 'chart' && choice.callers < 0;
const source = isSourced ? wholeNumber(words.get('source'), page.sources.length) : -1;
const drawing = page.arranged(choice);
const box = isLost ? -1 : boxOfWords(page, drawing, words);
const by = words.get('by');
const state = {
...choice,
source: source >= 0 && page.sources[source].weight > 0 ? source : -1,
box: Math.max(0, box),
...(isSourced ? partOfWords(words, drawing.length) : { from: -1, to: -1 }),
find: decoded(words.get('find') || ''),
by: by === 'name' || by === 'regexp' ? by : 'text',
order: words.get('order') === 'weight' ? 'weight' : 'place',
below: page.isBelow ? words.get('root') !== 'above' : words.get('root') === 'below',
lists: wholeNumber(words.get('lists'), WIDEST_LISTS),
share: page.view === 'compare' && (page.isShare ? words.get('share') !== '0' : words.get('share') === '1'),
byName: page.view !== 'compare' && words.get('colours') === 'name',
};
return { state, isDead: box < 0 };
}
function stepsMade() {
return history.state?.steps || 0;
}
function writeAddress(fragment, isStep) {
const address = fragment === '#' && location.hash === '' ? '' : fragment;
try {
if (isStep) history.pushState({ steps: stepsMade() + 1 }, '', address);
else history.replaceState({ steps: stepsMade() }, '', address);
} catch {
}
}
function partOfProfile(view, number) {
const { page, drawing, state } = view;
if (number === drawing.number) return zoomedPart(view);
const profile = page.drawing(number);
const path = pathOf(page, drawing, state.box);
const box = boxAt(page, profile, path, -1, false);
const isThere = profile.count > 0 && profile.depth[box] === path.length;
const there = { ...state, drawing: number, box };
if (isThere) return zoomedPart({ ...view, drawing: profile, state: there, span: spanOf(page, profile, there) });
const none = new Float64Array(page.names.length);
return { own: none, total: none, whole: 0 };
}
function comparisonOf(view) {
return { view, parts: [0, 1].map((number) => partOfProfile(view, number)) };
}
function weightsOf({ parts }, name, kind) {
const [before, after] = parts.map((part) => part[kind][name]);
return { before, after };
}
function comparedValue(comparison, name, key) {
const { page, isShare } = comparison.view;
const [kind, column] = key.split('-');
const { before, after } = comparedOf(page, isShare, weightsOf(comparison, name, kind === 'own' ? 'own' : 'total'));
if (column === 'before') return before;
if (column === 'after') return after;
return column === 'change' ? after - before : (after - before) / before;
}
function comparedTexts(comparison, name, kind) {
const { page, isShare } = comparison.view;
const weights = weightsOf(comparison, name, kind);
const [whole, wholeAfter] = comparison.parts.map((part, number) => (isShare ? page.drawing(number).total : part.whole));
const { before, after } = weights;
const compared = comparedOf(page, isShare, weights);
const change = isShare ? pointsText(before / (whole || 1), after / (wholeAfter || 1)) : differenceText(before, after, page.unit);
return {
before: [weightText(before, page.unit), percentText(before, whole)],
after: [weightText(after, page.unit), percentText(after, wholeAfter)],
change: [change, changeText(compared.before, compared.after)],
};
}
function pointsText(before, after) {
const sign = after > before ? '+' : after < before ? '\u2212' : '';
return sign + percentText(Math.abs(after - before), 1);
}
const TABLE_STEP = 100;
const KINDS = ['own', 'total'];
const CHOICES = [['before', 'after', 'change'], ['after', 'change'], ['change']];
function functionRows(view, matching) {
const { page, state } = view;
const comparison = page.view === 'compare' ? comparisonOf(view) : null;
const parts = comparison ? comparison.parts : [zoomedPart(view)];
const all = upTo(page.names.length).filter((name) => parts.some(({ total }) => total[name] > 0) && (!matching || matching[name] === 1));
return { here: comparison ? parts[state.drawing] : parts[0], comparison, all };
}
function headingText(view, isMatching) {
const { page, state } = view;
const ofBox = state.from >= 0 ? ' in this part' : ' in this box';
const part = state.source >= 0 ? ` in ${shortened(page.sources[state.source].name, 60)}` : ofBox;
return `Functions${isZoomed(view) ? part : ''}${isMatching ? ' that match' : ''}`;
}
function comparedCells(comparison, name, kind) {
const texts = comparedTexts(comparison, name, kind);
return CHOICES[0].map((column) => {
const cell = document.createElement('td');
cell.className = column;
cell.append(...texts[column].map((text) => withText('span', text)));
return cell;
});
}
class FunctionTable {
constructor(page, onChoose, say) {
this.page = page;
this.onChoose = onChoose;
this.say = say;
const isCompared = page.view === 'compare';
this.section = element('functions');
this.table = inside(this.section, 'table');
this.body = inside(this.table, 'tbody');
this.more = button('functions-more');
element('lists').classList.toggle('compared', isCompared);
for (const row of this.table.querySelectorAll('thead tr')) if (row.classList.contains('of-comparison') !== isCompared) row.remove();
this.heads = [...this.table.querySelectorAll('th')];
this.sort = { key: isCompared ? 'own-change' : 'own', isRising: false };
this.marked = null;
const none = new Float64Array(0);
this.rows = { here: { own: none, total: none, whole: 0 }, comparison: null, all: new Int32Array(0) };
this.sorted = [];
for (const { dataset, firstElementChild: sorting } of this.heads) {
const { key } = dataset;
if (key && sorting) sorting.addEventListener('click', () => this.sortBy(key));
}
this.more.addEventListener('click', () => this.showMore());
new ResizeObserver(() => requestAnimationFrame(() => this.fit())).observe(this.section);
}
show(seen, matching) {
const view = wholeOf(seen);
const { callers, by, find } = seen.state;
const isMarked = matching !== null && by === 'name';
this.marked = callers >= 0 ? view.page.names[callers] : isMarked ? find : null;
this.rows = functionRows(view, isMarked ? null : matching);
if (this.rows.comparison) this.nameChanges(view.isShare);
element('functions-title').textContent = headingText(view, matching !== null && !isMarked);
this.showSorted();
}
nameChanges(isShare) {
for (const kind of KINDS) {
const sorting = inside(this.table, `[data-key="${kind}-change"] button`);
sorting.textContent = isShare ? 'Points' : 'Change';
sorting.setAttribute('aria-label', isShare ? `${kind} points` : `${kind} change`);
}
}
sortBy(key) {
const isRising = this.sort.key === key ? !this.sort.isRising : key === 'name';
this.sort = { key, isRising };
this.showSorted();
}
showSorted() {
const { key, isRising } = this.sort;
this.sorted = this.sortedNames(key, isRising);
this.body.replaceChildren();
for (const head of this.heads) {
if (head.dataset.key !== key) head.removeAttribute('aria-sort');
else head.setAttribute('aria-sort', isRising ? 'ascending' : 'descending');
}
this.showMore();
}
sortedNames(key, isRising) {
const { names } = this.page;
const all = Array.from(this.rows.all);
const turned = isRising ? 1 : -1;
if (key === 'name') return all.sort((one, other) => (names[one] < names[other] ? -turned : turned));
const values = new Map(all.map((name) => [name, this.valueOf(name, key)]));
const value = (name) => values.get(name) || 0;
return all.sort((one, other) => (value(one) === value(other) ? one - other : turned * (value(one) - value(other))));
}
valueOf(name, key) {
const { here, comparison } = this.rows;
return comparison ? comparedValue(comparison, name, key) : here[key === 'own' ? 'own' : 'total'][name];
}
showMore() {
const { body, more, sorted } = this;
const shown = body.children.length;
for (const name of sorted.slice(shown, shown + TABLE_STEP)) body.append(this.row(name));
more.hidden = body.children.length >= sorted.length;
more.textContent = `Show more of ${separated(sorted.length)}`;
this.fit();
}
fit() {
const { table, section, heads, rows } = this;
const fits = () => table.offsetWidth <= section.clientWidth;
for (const shown of rows.comparison ? CHOICES : []) {
table.dataset.shown = shown.join(' ');
for (const head of heads) if (head.scope === 'colgroup') head.colSpan = shown.length;
if (fits()) break;
}
section.classList.toggle('scrolled', !fits());
}
row(name) {
const { names } = this.page;
const { here, comparison } = this.rows;
const chosen = nameButton(nameText(names[name]), () => this.onChoose(name, here.total[name] > 0));
chosen.title = described(names[name]);
const first = document.createElement('td');
first.append(chosen);
const row = document.createElement('tr');
if (names[name] === this.marked) row.setAttribute('aria-current', 'true');
sayAbout(row, () => this.exactLine(name), this.say);
row.append(first, ...KINDS.flatMap((kind) => (comparison ? comparedCells(comparison, name, kind) : this.weightCells(here[kind][name]))));
return row;
}
weightCells(weight) {
const { unit } = this.page;
return [weightText(weight, unit), percentText(weight, this.rows.here.whole)].map((text) => withText('td', text));
}
exactLine(name) {
const { here, comparison } = this.rows;
const told = (weight) => exactText(weight, this.page.unit);
const weights = (kind) => {
if (!comparison) return `${kind} ${told(here[kind][name])}`;
const { before, after } = weightsOf(comparison, name, kind);
return `${kind} before ${told(before)} \u00b7 after ${told(after)}`;
};
return [shortened(this.page.names[name], 300) || '(empty name)', ...KINDS.map(weights)].join(' \u00b7 ');
}
}
const PADDED_FROM = 20;
class LaneStrip {
constructor(page, onChoose, say) {
this.page = page;
this.strip = element('lanes');
this.axis = element('axis');
this.buttons = [];
if (page.view !== 'chart') return;
for (const [number, source] of page.sources.entries()) {
const lane = nameButton(shortened(source.name, 300), () => onChoose(number));
lane.title = `${described(source.name)}: ${weightText(source.weight, source.unit)}`;
sayAbout(lane, () => sourceText(source, exactText), say);
this.strip.append(lane);
this.buttons.push(lane);
}
}
show(view) {
this.axis.hidden = !isTimeline(this.page, view.drawing);
this.strip.hidden = this.axis.hidden || isBeside(view.drawing);
this.showAxis(view);
const seen = new Map(lanesOf(this.page, view.drawing, view.span, this.strip.clientWidth).map((lane) => [lane.number, lane]));
for (const [number, button] of this.buttons.entries()) {
const lane = seen.get(number);
button.hidden = !lane;
button.setAttribute('aria-pressed', String(view.state.source === number));
if (!lane) continue;
button.style.left = `${lane.left}px`;
button.style.width = `${lane.right - lane.left}px`;
button.style.padding = lane.right - lane.left < PADDED_FROM ? '0' : '';
}
}
showAxis(view) {
const ticks = ticksOf(this.page, view.drawing, view.span, this.axis.clientWidth);
this.axis.replaceChildren(...ticks.map(({ left, text }) => {
const tick = withText('span', text);
tick.style.left = `${Math.round(left)}px`;
return tick;
}));
}
}
class Stage {
constructor(page) {
this.page = page;
this.picture = element('picture');
this.picture.style.setProperty('--rows', String(page.drawing(page.drawingCount - 1).rowCount));
this.canvas = elementOf('canvas', HTMLCanvasElement);
this.darkness = matchMedia('(prefers-color-scheme: dark)');
this.byName = nameShades(page.names, nameShade);
this.byPackage = nameShades(page.names, packageShade);
this.lettering = new Lettering(page.names, formsOf);
this.sourceLettering = new Lettering(page.sources.map((source) => source.name), (name) => [name]);
this.painted = { width: 0, height: 0, top: 0 };
}
area() {
return { width: this.picture.clientWidth, height: this.picture.clientHeight, top: this.picture.scrollTop };
}
scene(view, part, colours) {
const { page, drawing, span, matches, state, isShare } = view;
const { lettering, sourceLettering } = this;
const shadeOf = state.byName ? this.byName : this.byPackage;
return { page, drawing, span, matches, isShare, below: state.below, ...part, colours, shadeOf, lettering, sourceLettering };
}
wholeScene(view, isPaper) {
const { first, end } = rowsInSpan(view.drawing, view.span);
const height = Math.max(end - first, 1) * ROW_HEIGHT;
const lanes = lanesHeight(this.page, view.drawing);
const top = view.state.below ? 0 : first * ROW_HEIGHT;
const part = { width: this.picture.clientWidth, height, top, rowCount: end, lanes };
return this.scene(view, part, this.darkness.matches && !isPaper ? DARK : LIGHT);
}
makeRoom(view) {
element('room').style.height = `${view.drawing.rowCount * ROW_HEIGHT}px`;
}
paint(view) {
const area = this.area();
const dots = window.devicePixelRatio || 1;
this.fit(area.width, area.height, dots);
const part = { ...area, rowCount: view.drawing.rowCount, lanes: 0 };
paintOnCanvas(this.canvas, this.scene(view, part, this.darkness.matches ? DARK : LIGHT), dots);
this.painted = area;
}
fit(width, height, dots) {
const { canvas } = this;
const [across, down] = [Math.round(width * dots), Math.round(height * dots)];
if (canvas.width === across && canvas.height === down) return;
canvas.width = across;
canvas.height = down;
canvas.style.width = `${width}px`;
canvas.style.height = `${height}px`;
}
isStale() {
const { width, height, top } = this.area();
return this.painted.width !== width || this.painted.height !== height || this.painted.top !== top;
}
placeUnder(view, point) {
const { drawing, span, state } = view;
const { left, top } = this.picture.getBoundingClientRect();
const { width, top: scrolled } = this.area();
const across = point.clientX - left;
const row = rowAt(drawing.rowCount, point.clientY - top + scrolled, state.below);
if (across < 0 || across >= width || row < 0 || row >= drawing.rowCount) return null;
return placeOver(placesOf(drawing, row, span, width), across);
}
centre(view, row) {
const { picture } = this;
picture.scrollTop = rowTop(view.drawing.rowCount, row, view.state.below) + (ROW_HEIGHT - picture.clientHeight) / 2;
}
reveal(view, row) {
const { picture } = this;
const top = rowTop(view.drawing.rowCount, row, view.state.below);
if (top < picture.scrollTop) picture.scrollTop = top;
const lowest = picture.scrollTop + picture.clientHeight - ROW_HEIGHT;
if (top > lowest) picture.scrollTop = top - picture.clientHeight + ROW_HEIGHT;
}
}
class Tip {
constructor() {
this.tip = element('tip');
this.shown = '';
}
hide() {
this.tip.hidden = true;
}
show(view, place, event) {
const texts = placeDetails(view, place);
const shown = texts.join('\n');
if (shown !== this.shown) this.tip.replaceChildren(...texts.map((text) => withText('p', text)));
this.shown = shown;
this.tip.hidden = false;
this.placeBeside(event);
}
placeBeside(event) {
const { width, height } = this.tip.getBoundingClientRect();
const left = Math.min(event.clientX + 14, window.innerWidth - width - 4);
const below = event.clientY + 18;
const top = below + height + 4 < window.innerHeight ? below : event.clientY - height - 10;
this.tip.style.transform = `translate(${Math.max(4, left)}px, ${Math.max(4, top)}px)`;
}
}
"##;
