//! What `page/join` takes of page/tools.js, viewer.js, main.js.
//! `checks/page_source --write` makes this file.

pub(crate) const TEXT: &str = r##"function showTop(page, drawing, say) {
document.title = shortened(page.title, 200);
element('title').textContent = described(page.title);
element('summary').textContent = summaryText(page, drawing);
showItems(element('notices'), noticesOf(page, drawing));
element('matched').classList.toggle('filtered', page.isFiltered);
element('sources').hidden = page.sources.length < 2;
const sources = inside(element('sources'), 'ul');
showItems(sources, page.sources.map((source) => sourceText(source, weightText)));
for (const [number, item] of [...sources.querySelectorAll('li')].entries()) {
sayAbout(item, () => sourceText(page.sources[number], exactText), say);
}
}
function matchedText({ page, drawing, matches, isRefused }) {
if (isRefused) return 'not a regular expression';
if (!matches) return '';
const matched = `${separated(matches.boxes.length)} matched`;
if (drawing.centre >= 0) return matched;
return `${matched}, ${percentText(matches.weight, drawing.total)}${page.isFiltered ? ' of what is kept' : ''}`;
}
function showTools(view) {
const { page, state, drawing } = view;
const name = drawingText(page, drawing, state.drawing);
const [find, snapshot] = [input('find'), input('snapshot')];
if (find.value !== state.find) find.value = state.find;
const by = elementOf('by', HTMLSelectElement);
by.value = state.by;
by.options[0].text = isEitherCase(state.find, 'text') ? 'in names, any case' : 'in names, as written';
elementOf('order', HTMLSelectElement).value = state.order;
find.setAttribute('aria-invalid', String(view.isRefused));
element('matched').textContent = matchedText(view);
button('next').disabled = !view.matches;
button('previous').disabled = !view.matches;
button('back').disabled = !isZoomed(view) && state.callers < 0;
element('heavy-label').hidden = page.view === 'chart';
input('heavy').checked = state.heavy;
element('beside-label').hidden = !hasLanes(page);
input('beside').checked = state.beside;
element('by-name-label').hidden = page.view === 'compare';
input('by-name').checked = state.byName;
for (const arranging of ['heavy', 'beside']) input(arranging).disabled = state.callers >= 0;
input('below').checked = state.below;
element('snapshot-label').hidden = page.view === 'compare' || page.drawingCount === 1;
snapshot.max = String(page.drawingCount - 1);
snapshot.value = String(state.drawing);
snapshot.setAttribute('aria-valuetext', name);
element('before-label').hidden = page.view !== 'compare';
input('before').checked = state.drawing === 0;
element('share-label').hidden = page.view !== 'compare';
input('share').checked = state.share;
const called = element('drawing-name');
called.textContent = [name, centreText(page, drawing)].filter((text) => text !== '').join(' \u00b7 ');
called.title = called.textContent;
}
const REST = 200;
const DEAD_LINK = 'No box here has the path of this address, so all of them are shown.';
class Viewer {
constructor(page) {
this.page = page;
this.stage = new Stage(page);
this.ring = new Ring(this.stage.picture);
this.tip = new Tip();
this.pointAt = (text) => {
this.pointed = text;
this.showStatus();
};
this.lanes = new LaneStrip(page, (source) => this.change({ ...UNZOOMED, source, focus: 0 }, true), this.pointAt);
this.functions = new FunctionTable(page, (name, isHere) => {
const { drawing, callers } = this.view.state;
if (name === callers) this.zoomTo(0);
else this.showCallers(name, isHere ? drawing : 1 - drawing);
}, this.pointAt);
this.matching = nameMatcher(page.names);
this.hovered = null;
this.pointed = '';
this.message = '';
this.wished = null;
this.made = '';
[this.waiting, this.writing] = [0, 0];
const { state, isDead } = linkedOf(page, wordsOf(location.hash));
this.view = viewOf(page, this.matching, { ...state, focus: focusIn(page.arranged(state), state, -1) }, null);
this.showChange(null);
this.beginStep(isDead);
}
statusText() {
const { view, hovered, pointed, message } = this;
if (hovered) return placeLine(view, hovered);
return pointed || message || (view.drawing.count > 0 ? boxLine(view, view.state.focus) : '');
}
showStatus() {
element('status').textContent = this.statusText();
}
say(text) {
this.message = text;
this.showStatus();
}
hover(place, event) {
this.hovered = place;
if (place) this.tip.show(this.view, place, event);
else this.tip.hide();
this.showStatus();
}
forget() {
this.hovered = null;
this.pointed = '';
this.message = '';
this.tip.hide();
}
paint() {
this.lanes.show(this.view);
this.stage.paint(this.view);
this.showFocus();
}
showFocus() {
this.ring.show(this.view);
button('callers').disabled = focusedFunction(this.view) < 0;
this.showStatus();
}
refresh() {
if (this.stage.isStale()) this.paint();
}
look(state) {
const old = this.view;
this.view = viewOf(this.page, this.matching, state, old);
this.showChange(old);
}
showChange(old) {
const { page, stage, view } = this;
const { picture } = stage;
const { drawing, state } = view;
this.forget();
showTools(view);
if (!old || old.state.lists !== state.lists) showLists(state.lists);
if (!old || old.state.drawing !== state.drawing) showTop(page, page.drawing(state.drawing), this.pointAt);
if (!old || isOther(old, view)) this.showFunctionsSoon();
this.lanes.show(view);
stage.makeRoom(view);
this.showFocus();
if (state.below !== (old ? old.state.below : false)) picture.scrollTop = state.below ? picture.scrollHeight : 0;
if (drawing.count > 0 && drawing.centre >= 0 && (!old || old.drawing !== drawing)) stage.centre(view, drawing.row[state.box]);
else if (!old || isElsewhere(old, view)) this.revealFocus();
stage.paint(view);
}
showFunctionsSoon() {
clearTimeout(this.waiting);
if (this.view.state.from < 0) afterPaint(() => this.showFunctions());
else this.waiting = window.setTimeout(() => this.showFunctions(), REST);
}
showFunctions() {
const { view, matching } = this;
const { find, by } = view.state;
this.functions.show(view, view.matches && matching(find, by));
}
lookAt(part) {
const { state, drawing } = this.view;
if (!isTimeline(this.page, drawing) || drawing.count === 0) return;
const isWhole = part.from <= 0 && part.to >= drawing.length;
this.look({ ...state, ...UNZOOMED, ...(isWhole ? {} : part) });
clearTimeout(this.writing);
this.writing = window.setTimeout(() => writeAddress(fragmentOf(this.page, this.view.state), false), REST);
}
change(changed, isStep) {
clearTimeout(this.writing);
this.look({ ...this.view.state, ...changed });
const fragment = fragmentOf(this.page, this.view.state);
if (isStep) this.made = fragment;
writeAddress(fragment, isStep);
}
revealFocus() {
const { drawing, state } = this.view;
if (drawing.count > 0) this.stage.reveal(this.view, drawing.row[state.focus]);
}
zoomTo(box) {
const { drawing, state } = this.view;
const source = sourceOf(drawing, box);
if (source >= 0) this.change({ ...UNZOOMED, source: source === state.source ? -1 : source, focus: box }, true);
else if (box === state.box && state.source < 0 && state.from < 0) this.change({ focus: box }, false);
else this.change({ ...UNZOOMED, box, focus: box }, true);
}
goBack() {
const { view } = this;
if (!isZoomed(view) && view.state.callers < 0) return;
if (stepsMade() > 0) history.back();
else this.change({ ...UNZOOMED, callers: -1, focus: 0 }, true);
}
showCallers(name, drawing) {
if (name >= 0) this.change({ ...UNZOOMED, callers: name, drawing, focus: 0 }, true);
}
showCallersOfFocus() {
this.showCallers(focusedFunction(this.view), this.view.state.drawing);
}
focusOn(box) {
this.view = { ...this.view, state: { ...this.view.state, focus: box } };
this.forget();
this.revealFocus();
this.refresh();
this.showFocus();
}
turnTo(choice) {
const { page, wished } = this;
const { state, drawing } = this.view;
const other = page.arranged({ ...state, ...choice });
const isWished = wished && wished.drawing === drawing && wished.box === state.box;
const zoomed = isWished ? wished.path : this.pathTo(state.box);
const find = (path, from) => (other.count ? boxAt(page, other, path, timeOf(drawing, from), isCaller(drawing, from)) : 0);
const box = find(zoomed, state.box);
const isOnBox = state.focus === state.box;
const focus = isOnBox ? focusIn(other, { source: state.source, box }, box) : find(this.pathTo(state.focus), state.focus);
this.wished = { drawing: other, box, path: zoomed };
this.change({ ...choice, box, focus }, false);
}
showBefore(box) {
const { page, view } = this;
const choice = { drawing: 0, callers: -1, heavy: view.state.heavy, beside: false };
const there = boxAt(page, page.arranged(choice), pathOf(page, page.drawing(0), box), -1, false);
this.change({ ...UNZOOMED, ...choice, box: there, focus: there }, true);
}
pathTo(box) {
const { drawing } = this.view;
return drawing.count ? pathOf(this.page, drawing, box) : [];
}
toMatch(isForward) {
const { drawing, matches, span, state } = this.view;
if (!matches) return;
const { focus, order } = state;
const box = order === 'weight' ? neighbourByWeight(matches, drawing, focus, isForward) : neighbourMatch(matches, focus, isForward);
if (box < 0) return;
if (!isInSpan(drawing, box, span)) this.change({ ...UNZOOMED, focus: box }, true);
this.focusOn(box);
}
arrive(words) {
const { state, isDead } = linkedOf(this.page, words);
const drawing = this.page.arranged(state);
const { focus } = this.view.state;
this.look({ ...state, focus: focusIn(drawing, state, this.view.drawing === drawing ? focus : -1) });
this.beginStep(isDead);
}
beginStep(isDead) {
if (isDead) this.say(DEAD_LINK);
this.made = fragmentOf(this.page, this.view.state);
writeAddress(this.made, false);
}
goTo(event) {
const { hash } = location;
this.arrive(event.state ? wordsOfStep(hash, this.made, fragmentOf(this.page, this.view.state)) : wordsOf(hash));
}
}
function show(page) {
element('tools').hidden = false;
inside(document, 'main').hidden = false;
afterPaint(() => performance.mark('painted'));
const viewer = new Viewer(page);
if (page.view === 'compare') {
new GoneList(page, (box) => viewer.showBefore(box), viewer.pointAt);
}
listen(viewer);
if (page.hasMore) afterPaint(loadAgainSoon);
}
function openPage() {
let page;
try {
page = pageOf(JSON.parse(element('data').textContent || ''));
} catch (fault) {
const why = fault instanceof Error ? fault.message : '';
element('summary').textContent = `The data of this page cannot be read: ${why}`;
return;
}
show(page);
}
openPage();
"##;
