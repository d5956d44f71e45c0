//! What `page/join` takes of page/scene.js, canvas.js, notices.js, svg.js, saving.js, listening.js.
//! `checks/page_source --write` makes this file.

pub(crate) const TEXT: &str = r##"const LANE_HEIGHT = 22;
const AXIS_HEIGHT = 16;
const TICK_HEIGHT = 12;
const TEXT_FROM = 20;
function coloursFor(scene, box) {
const { drawing, colours, span, matches } = scene;
if (matches && matches.isMatch(box)) return { fill: colours.match, ink: colours.matchInk };
if (matches || drawing.depth[box] < spanOfRow(drawing, drawing.row[box], span).depth) return { fill: colours.dim, ink: colours.dimInk };
if (drawing.other) {
const { before, after } = comparedOf(scene.page, scene.isShare, bothWeights(drawing, box));
return { fill: colours.changes[changeShade(before, after)], ink: colours.ink };
}
if (drawing.depth[box] === 0) return { fill: colours.root, ink: colours.ink };
return { fill: colours.plain[scene.shadeOf(drawing.name[box])], ink: colours.ink };
}
function joinedFill({ drawing, colours, matches }, place) {
if (!matches) return colours.joined;
const matching = matchesIn(matches, drawing, place);
if (matching === 0) return colours.dim;
return matching === place.count ? colours.match : colours.joinedMatch;
}
function addedText(scene, box) {
if (!scene.drawing.other) return '';
const { before, after } = comparedOf(scene.page, scene.isShare, bothWeights(scene.drawing, box));
return changeText(before, after);
}
function paintPlace(painter, scene, place, top) {
const { box, left, right, begin, end } = place;
if (isJoined(place)) {
painter.rectangle(begin, top, end - begin, ROW_HEIGHT - 1, joinedFill(scene, place));
return;
}
const { fill, ink } = coloursFor(scene, box);
painter.rectangle(begin, top, end - begin, ROW_HEIGHT - 1, fill);
if (right - left < TEXT_FROM || sourceOf(scene.drawing, box) >= 0) return;
const text = scene.lettering.textFor(scene.drawing.name[box], addedText(scene, box), right - left);
if (text) painter.text(left + PAD, top + ROW_HEIGHT / 2, text, ink);
}
function paintSource(painter, scene, row, top) {
const band = bandOf(scene.drawing, row);
if (!band || band.row !== row) return;
const text = scene.sourceLettering.textFor(band.source, '', scene.width);
if (text) painter.text(PAD, top + ROW_HEIGHT / 2, text, coloursFor(scene, band.first).ink);
}
function paintRow(painter, scene, row) {
const top = scene.lanes + rowTop(scene.rowCount, row, scene.below) - scene.top;
if (top >= scene.lanes + scene.height) return;
for (const place of placesOf(scene.drawing, row, scene.span, scene.width)) {
painter.entitled(() => placeTitle(scene, place), () => paintPlace(painter, scene, place, top));
}
paintSource(painter, scene, row, top);
}
function paintBoundaries(painter, scene) {
if (!isTimeline(scene.page, scene.drawing) || isBeside(scene.drawing)) return;
const { span, width, lanes } = scene;
for (const source of scene.page.sources.slice(1)) {
if (source.start <= span.from || source.start >= span.to) continue;
painter.upright(((source.start - span.from) * width) / (span.to - span.from), lanes, scene.height, scene.colours.line);
}
}
function paintLanes(painter, scene) {
for (const { number, left, right } of lanesOf(scene.page, scene.drawing, scene.span, scene.width)) {
painter.rectangle(left, 0, Math.max(right - left - 1, 0.3), LANE_HEIGHT - 2, scene.colours.dim);
const text = scene.sourceLettering.textFor(number, '', right - left);
if (text) painter.text(left + PAD, LANE_HEIGHT / 2, text, scene.colours.ink);
}
}
function paintAxis(painter, scene) {
const top = scene.lanes - AXIS_HEIGHT;
for (const { left, text } of ticksOf(scene.page, scene.drawing, scene.span, scene.width)) {
painter.upright(left, top, TICK_HEIGHT, scene.colours.line);
painter.text(left + PAD, top + TICK_HEIGHT / 2, text, scene.colours.ink);
}
}
function lanesHeight(page, drawing) {
if (!isTimeline(page, drawing)) return 0;
return isBeside(drawing) ? AXIS_HEIGHT : LANE_HEIGHT + AXIS_HEIGHT;
}
function paintScene(painter, scene) {
const { rowCount, below, top, lanes } = scene;
painter.rectangle(0, 0, scene.width, lanes + scene.height, scene.colours.paper);
if (lanes > 0) {
paintLanes(painter, scene);
paintAxis(painter, scene);
}
const rows = [rowAt(rowCount, top, below), rowAt(rowCount, top + scene.height, below)];
const last = Math.min(rowCount - 1, Math.max(...rows));
for (let row = Math.max(0, Math.min(...rows)); row <= last; row++) paintRow(painter, scene, row);
paintBoundaries(painter, scene);
}
class CanvasPainter {
constructor() {
this.boxes = new Map();
this.texts = [];
this.lines = [];
}
rectangle(left, top, width, height, fill) {
const sides = this.boxes.get(fill);
if (sides) sides.push(left, top, width, height);
else this.boxes.set(fill, [left, top, width, height]);
}
text(left, middle, text, ink) {
this.texts.push({ left, middle, text, ink });
}
upright(left, top, height, colour) {
this.lines.push({ left, top, height, colour });
}
entitled(titleOf, paint) {
paint();
}
finish(context) {
for (const [fill, sides] of this.boxes) {
context.fillStyle = fill;
for (let at = 0; at < sides.length; at += 4) context.fillRect(sides[at], sides[at + 1], sides[at + 2], sides[at + 3]);
}
context.font = FONT;
context.textBaseline = 'middle';
context.direction = 'ltr';
for (const { left, middle, text, ink } of this.texts) {
context.fillStyle = ink;
context.fillText(text, left, middle);
}
for (const { left, top, height, colour } of this.lines) {
context.fillStyle = colour;
context.fillRect(Math.round(left), top, 1, height);
}
}
}
function paintOnCanvas(canvas, scene, dots) {
const context = contextOf(canvas);
context.setTransform(dots, 0, 0, dots, 0, 0);
const painter = new CanvasPainter();
paintScene(painter, scene);
painter.finish(context);
}
function summaryText(page, drawing) {
const count = page.sources.length;
const files = count === 0 ? '' : ` of ${count === 1 ? '1 source' : `${count} sources`}`;
const types = [...new Set(weighty(page.sources).map((source) => source.type))];
const type = types.length === 1 && types[0] !== '' ? ` of ${visible(types[0])}` : '';
const boxes = `${separated(drawing.count)} ${drawing.count === 1 ? 'box' : 'boxes'}`;
if (page.view === 'compare') {
const [before, after] = page.sources.map((source) => source.weight);
const weights = `before ${weightText(before, page.unit)}, after ${weightText(after, page.unit)}${type}`;
return `Comparison: ${weights}, ${changeText(before, after)}; ${boxes}`;
}
const kind = page.view === 'graph' ? 'Flame graph' : 'Flame chart';
return `${kind}${files}: ${weightText(drawing.total, page.unit)}${type}, ${boxes}`;
}
function sourceText(source, tell) {
const type = source.type === '' ? '' : ` of ${visible(source.type)}`;
return `${shortened(source.name, 300)}: ${tell(source.weight, source.unit)}${type}`;
}
function unitsNotice(page) {
const told = weighty(page.sources).map(({ name, unit }) => `${shortened(name, 60)} in ${unit === '' ? 'plain numbers' : visible(unit)}`);
const little = page.view === 'compare' ? 'comparing them' : 'their sum';
return `The sources have different units, so ${little} means little: ${told.join(', ')}.`;
}
function typesNotice(page) {
const told = weighty(page.sources).map(({ name, type }) => `${shortened(name, 60)} has ${type === '' ? 'none' : visible(type)}`);
return `The sources have different types of samples: ${told.join(', ')}.`;
}
function filterNotice(page) {
const share = percentText(page.kept, page.whole);
const kept = share === '100%' ? 'more than 99.9%' : share;
const whole = page.view === 'compare' ? 'the whole of both profiles' : 'the whole';
return `A filter keeps ${kept} of ${whole}: ${weightText(page.kept, page.unit)} of ${weightText(page.whole, page.unit)}.`;
}
function leftOutNotice(page, drawing, of) {
const { boxes, weight } = drawing.leftOut;
if (boxes === 0) return '';
const many = `${separated(boxes)} ${boxes === 1 ? 'box' : 'boxes'} of together ${weightText(weight, page.unit)}`;
return `Left out${of}: ${many}, each lighter than ${weightText(drawing.least, page.unit)}. Neither the search nor the lists count them.`;
}
function leftOutNotices(page, drawing) {
if (page.view !== 'compare') return [leftOutNotice(page, drawing, '')];
return [leftOutNotice(page, page.drawing(0), ' of the profile before'), leftOutNotice(page, page.drawing(1), ' of the profile after')];
}
function noticesOf(page, drawing) {
const notices = page.hasMore ? ['More samples are to come: this page loads itself again.'] : [];
if (page.unit === null) notices.push(unitsNotice(page));
else if (new Set(weighty(page.sources).map((source) => source.type)).size > 1) notices.push(typesNotice(page));
if (page.isFiltered) notices.push(filterNotice(page));
if (Math.max(page.kept, page.whole) > Number.MAX_SAFE_INTEGER) {
const limit = separated(Number.MAX_SAFE_INTEGER);
notices.push(`Weights above ${limit} are rounded here: JavaScript has no more digits. The data in the document is exact.`);
}
notices.push(...leftOutNotices(page, drawing).filter((notice) => notice !== ''));
if (drawing.count === 0 && drawing.leftOut.boxes === 0) notices.push('No sample has weight, so there is nothing to draw.');
return notices;
}
function centreText(page, drawing) {
if (drawing.centre < 0) return '';
const name = shortened(page.names[drawing.centre], 100) || '(empty name)';
return drawing.count > 0 ? `callers and callees of ${name}` : `${name} is not here`;
}
function countsText(page, counts) {
const most = 8;
const told = page.sources.slice(0, most).map(({ name }, source) => `${separated(counts[source])} of ${shortened(name, 60)}`);
const others = counts.slice(most).reduce((sum, count) => sum + count, 0);
return told.join(', ') + (counts.length > most ? ` and ${separated(others)} of ${counts.length - most} more sources` : '');
}
function drawingText(page, drawing, number) {
if (page.view === 'compare') return `${number === 0 ? 'before' : 'after'}: ${shortened(page.sources[number].name, 100)}`;
if (page.drawingCount === 1) return '';
if (drawing.at === undefined || !drawing.counts) return 'all samples';
const first = drawing.at === 1 ? 'the first sample' : `the first ${separated(drawing.at)} samples`;
return page.sources.length > 1 ? `${first}: ${countsText(page, drawing.counts)}` : first;
}
const ESCAPES = { '&': '&amp;', '<': '&lt;', '>': '&gt;', '"': '&quot;', "'": '&apos;' };
function escapedText(text) {
return text.replace(/[&<>"']/g, (character) => ESCAPES[character]);
}
function short(number) {
return String(Math.round(number * 100) / 100);
}
class SvgPainter {
constructor(isPaper) {
this.isPaper = isPaper;
this.parts = [];
}
rectangle(left, top, width, height, fill) {
const area = `x="${short(left)}" y="${short(top)}" width="${short(width)}" height="${short(height)}"`;
this.parts.push(`<rect ${area} fill="${fill}"/>`);
}
text(left, middle, text, ink) {
this.parts.push(`<text x="${short(left)}" y="${short(middle + 4)}" fill="${ink}">${escapedText(text)}</text>`);
}
upright(left, top, height, colour) {
this.rectangle(Math.round(left), top, 1, height, colour);
}
entitled(titleOf, paint) {
if (!this.isPaper) this.parts.push(`<g><title>${escapedText(titleOf())}</title>`);
paint();
if (!this.isPaper) this.parts.push('</g>');
}
}
function svgOf(scene, isPaper) {
const { page, drawing, width } = scene;
const height = scene.lanes + scene.height;
const texts = [shortened(page.title, 1500), centreText(page, drawing), summaryText(page, drawing)];
const painter = new SvgPainter(isPaper);
paintScene(painter, scene);
return [
`<svg xmlns="http://www.w3.org/2000/svg" width="${width}" height="${height}" viewBox="0 0 ${width} ${height}">`,
`<title>${escapedText(texts.filter((text) => text !== '').join(' \u00b7 '))}</title>`,
`<g font-family="${escapedText(FONT_FAMILY)}" font-size="12" xml:space="preserve">`,
...painter.parts,
'</g>',
'</svg>',
].join('\n');
}
const LONGEST_SIDE = 16384;
const LARGEST_AREA = 2 ** 28;
function offer(blob, name) {
const link = document.createElement('a');
link.href = URL.createObjectURL(blob);
link.download = name;
link.click();
setTimeout(() => URL.revokeObjectURL(link.href), 10000);
}
function fileName(title, ending) {
const plain = title.slice(0, 80).replace(/[^A-Za-z0-9.-]+/g, '-').replace(/^[.-]+|[.-]+$/g, '');
return `${plain || 'flamecollect'}.${ending}`;
}
function saveSvg(scene) {
offer(new Blob([svgOf(scene, false)], { type: 'image/svg+xml' }), fileName(scene.page.title, 'svg'));
}
function dotsFor(width, height) {
const fitting = [2, 1].find((dots) => Math.max(width, height) * dots <= LONGEST_SIDE && width * height * dots ** 2 <= LARGEST_AREA);
return fitting || 0;
}
function savePng(scene, say) {
const [width, height] = [scene.width, scene.lanes + scene.height];
const refuse = () => say(`A PNG of ${separated(width)} by ${separated(height)} pixels is too large for this browser. An SVG is not.`);
const dots = dotsFor(width, height);
if (dots === 0) {
refuse();
return;
}
const canvas = document.createElement('canvas');
[canvas.width, canvas.height] = [width * dots, height * dots];
paintOnCanvas(canvas, scene, dots);
canvas.toBlob((blob) => (blob ? offer(blob, fileName(scene.page.title, 'png')) : refuse()), 'image/png');
}
const TYPING = 150;
const WIDTH_STEP = 20;
const LONGEST_CLICK = 4;
function listenToSearch(viewer) {
const find = input('find');
const [by, order] = ['by', 'order'].map((id) => elementOf(id, HTMLSelectElement));
let waiting = 0;
const search = () => {
clearTimeout(waiting);
const { state } = viewer.view;
if (find.value !== state.find || by.value !== state.by) viewer.change({ find: find.value, by: by.value }, false);
};
find.addEventListener('input', () => {
clearTimeout(waiting);
waiting = window.setTimeout(search, TYPING);
});
by.addEventListener('change', search);
order.addEventListener('change', () => viewer.change({ order: order.value }, false));
element('search').addEventListener('submit', (event) => {
event.preventDefault();
search();
viewer.toMatch(true);
});
button('previous').addEventListener('click', () => viewer.toMatch(false));
find.addEventListener('keydown', (event) => {
const isPrevious = event.key === 'Enter' && event.shiftKey;
const isCleared = event.key === 'Escape' && find.value !== '';
if (!isPrevious && !isCleared) return;
event.preventDefault();
if (isCleared) find.value = '';
search();
if (isPrevious) viewer.toMatch(false);
});
}
function listenToPrint(viewer) {
const paper = element('paper');
window.addEventListener('beforeprint', () => {
const text = svgOf(viewer.stage.wholeScene(viewer.view, true), true);
paper.replaceChildren(new DOMParser().parseFromString(text, 'image/svg+xml').documentElement);
});
window.addEventListener('afterprint', () => paper.replaceChildren());
button('print').addEventListener('click', () => window.print());
}
function listenToTools(viewer) {
const [below, snapshot, before, share] = ['below', 'snapshot', 'before', 'share'].map(input);
const [heavy, beside, byName] = ['heavy', 'beside', 'by-name'].map(input);
button('back').addEventListener('click', () => viewer.goBack());
below.addEventListener('change', () => viewer.change({ below: below.checked }, false));
snapshot.addEventListener('input', () => viewer.turnTo({ drawing: Number(snapshot.value) }));
before.addEventListener('change', () => viewer.turnTo({ drawing: before.checked ? 0 : 1 }));
heavy.addEventListener('change', () => viewer.turnTo({ heavy: heavy.checked }));
beside.addEventListener('change', () => viewer.turnTo({ beside: beside.checked, from: -1, to: -1 }));
button('callers').addEventListener('click', () => viewer.showCallersOfFocus());
byName.addEventListener('change', () => viewer.change({ byName: byName.checked }, false));
share.addEventListener('change', () => viewer.change({ share: share.checked }, false));
const scene = () => viewer.stage.wholeScene(viewer.view, false);
button('save-svg').addEventListener('click', () => saveSvg(scene()));
button('save-png').addEventListener('click', () => savePng(scene(), (text) => viewer.say(text)));
}
function listenToLists(viewer) {
const divider = element('divider');
const listed = input('listed');
const widen = (width) => viewer.change({ lists: draggedWidth(width) }, false);
let [dragged, begin] = [-1, 0];
listed.addEventListener('change', () => viewer.change({ lists: listed.checked ? -1 : 0 }, false));
divider.addEventListener('pointerdown', (event) => {
divider.setPointerCapture(event.pointerId);
[dragged, begin] = [listsWidth(), event.clientX];
event.preventDefault();
});
divider.addEventListener('pointermove', (event) => {
if (dragged >= 0) showLists(draggedWidth(dragged + begin - event.clientX) || 1);
});
divider.addEventListener('pointerup', (event) => {
if (dragged >= 0 && event.clientX !== begin) widen(dragged + begin - event.clientX);
dragged = -1;
});
divider.addEventListener('keydown', (event) => {
const steps = event.key === 'ArrowLeft' ? 1 : event.key === 'ArrowRight' ? -1 : 0;
if (steps === 0 || isForBrowser(event)) return;
event.preventDefault();
widen(listsWidth() + steps * WIDTH_STEP);
});
}
function listenToPointer(viewer) {
const { picture } = viewer.stage;
let frame = 0;
let pressed = null;
picture.addEventListener('pointermove', (event) => viewer.hover(viewer.stage.placeUnder(viewer.view, event), event));
picture.addEventListener('pointerleave', (event) => viewer.hover(null, event));
picture.addEventListener('pointerdown', (event) => { pressed = event; });
picture.addEventListener('click', (event) => {
const moved = pressed ? Math.hypot(event.clientX - pressed.clientX, event.clientY - pressed.clientY) : 0;
const place = viewer.stage.placeUnder(viewer.view, event);
pressed = null;
if (!place || isJoined(place) || moved > LONGEST_CLICK) return;
const isNaming = event instanceof PointerEvent && event.pointerType === 'touch' && place.box !== viewer.view.state.focus;
if (isNaming) viewer.focusOn(place.box);
else viewer.zoomTo(place.box);
});
picture.addEventListener('scroll', () => {
cancelAnimationFrame(frame);
frame = requestAnimationFrame(() => viewer.refresh());
});
}
function isForBrowser(event) {
return event.ctrlKey || event.metaKey || event.altKey;
}
function listenToKeys(viewer) {
viewer.stage.picture.addEventListener('keydown', (event) => {
const { view } = viewer;
if (view.drawing.count === 0 || isForBrowser(event)) return;
if (event.key === 'Enter') viewer.zoomTo(view.state.focus);
else if (event.key === 'c') viewer.showCallersOfFocus();
else if (isMapKey(event.key)) moveByKey(viewer, event.key);
else if (/^(Arrow|Home|End)/.test(event.key)) {
const box = boxByKey(view, event.key);
if (box >= 0) viewer.focusOn(box);
} else return;
event.preventDefault();
});
document.addEventListener('keydown', (event) => {
const at = event.target instanceof Element ? event.target : document.body;
if (event.key === 'Escape' && !event.defaultPrevented && !at.matches('select')) viewer.goBack();
if (event.key !== '/' || at.matches('input[type="search"], select') || isForBrowser(event)) return;
event.preventDefault();
input('find').focus();
});
}
function listen(viewer) {
listenToSearch(viewer);
listenToPrint(viewer);
listenToTools(viewer);
listenToLists(viewer);
listenToPointer(viewer);
listenToMap(viewer);
listenToKeys(viewer);
window.addEventListener('popstate', (event) => viewer.goTo(event));
new ResizeObserver(() => viewer.refresh()).observe(viewer.stage.picture);
viewer.stage.darkness.addEventListener('change', () => viewer.paint());
}
"##;
