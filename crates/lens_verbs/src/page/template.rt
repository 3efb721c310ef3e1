//! The page but for its data: its style, its body and its script.

/// The page before its data: its style and its body.
pub const HEAD: &[u8] = b"<!DOCTYPE html>
<html lang='en'>
<head>
<meta charset='utf-8'>
<meta name='viewport' content='width=device-width'>
<title>lens</title>
<style>
:root { --line: #b8bec6; --ink: #1d2430; --soft: #5d6775; --run: #2f9e6b; --call: #3a72c4; --fault: #c8452f; }
:root { --still: #d99a1c; --halt: #9aa2ad; --job: #8a5bb5; }
* { box-sizing: border-box; }
body { margin: 0; font: 14px/1.4 system-ui, sans-serif; color: var(--ink); background: #fff; }
header { display: flex; flex-wrap: wrap; gap: .5rem 1rem; align-items: center; padding: .5rem 1rem; border-bottom: 1px solid var(--line); }
header { position: sticky; top: 0; background: #fff; z-index: 2; }
h1 { font-size: 1rem; margin: 0; }
h2 { font-size: .8rem; margin: .8rem 0 .3rem; color: var(--soft); font-weight: 600; }
button, input { font: inherit; padding: .15rem .5rem; }
input { width: 6.5rem; }
main { padding: 0 1rem 1rem; }
#said { min-height: 4.5rem; font-family: ui-monospace, monospace; font-size: 13px; white-space: pre-wrap; }
#said { border-left: 3px solid var(--call); padding: .2rem .6rem; margin: .6rem 0; }
#lanes { display: grid; grid-template-columns: 11rem 1fr; border: 1px solid var(--line); max-height: 48vh; overflow-y: auto; }
#names { border-right: 1px solid var(--line); font: 12px/18px ui-monospace, monospace; overflow: hidden; }
#names div { height: 18px; padding: 0 .4rem; white-space: nowrap; overflow: hidden; text-overflow: ellipsis; cursor: pointer; }
#names .chosen { background: #e7eefb; }
#wide { overflow-x: auto; }
canvas { display: block; }
.key span { display: inline-block; margin-right: 1rem; font-size: 12px; color: var(--soft); }
.key i { display: inline-block; width: .8rem; height: .8rem; margin-right: .3rem; vertical-align: -1px; }
.box { border: 1px solid var(--line); border-radius: 4px; padding: .2rem .4rem; margin: .25rem; background: #fbfcfd; }
.box > b { font: 600 12px ui-monospace, monospace; }
.box.held { border: 2px solid var(--still); }
.box.new, .thing.new { outline: 2px solid var(--call); }
.things { display: flex; flex-wrap: wrap; align-items: flex-start; gap: .2rem; }
.thing { border: 1px solid var(--line); border-radius: 3px; padding: 0 .35rem; background: #fff; max-width: 34rem; }
.thing { font: 12px/1.5 ui-monospace, monospace; }
.thing.running { border-left: 4px solid var(--run); }
.thing.calling { border-left: 4px solid var(--call); }
.thing.fault { border-left: 4px solid var(--fault); }
.thing.still { border-left: 4px solid var(--still); }
.thing.halted { border-left: 4px solid var(--halt); color: var(--soft); }
:focus-visible { outline: 2px solid var(--call); outline-offset: 1px; }
@media print {
  * { print-color-adjust: exact; }
  header { position: static; border: 0; }
  header button, header label, .keys { display: none; }
  #lanes { max-height: none; overflow: visible; }
  #wide { overflow: hidden; }
  canvas { max-width: 100%; margin: 0 !important; }
  .thing { break-inside: avoid; }
}
</style>
</head>
<body>
<header>
<h1 id='title'>lens</h1>
<button id='first' title='Home'>first</button>
<button id='back' title='left'>back</button>
<label>move <input id='at' type='number' min='0' value='0'></label> <span id='of'></span>
<button id='next' title='right'>next</button>
<button id='last' title='End'>last</button>
<button id='in' title='+'>wider</button>
<button id='out' title='-'>narrower</button>
</header>
<main>
<div id='said' role='status' aria-live='polite'></div>
<div id='lanes'><div id='names'></div>
<div id='wide' tabindex='0' role='img' aria-label='A lane for each thread and native server, from the first move to the last'>
<canvas id='canvas'></canvas></div></div>
<p class='key'><span><i style='background:var(--run)'></i>running</span>
<span><i style='background:var(--call)'></i>calling</span>
<span><i style='background:var(--fault)'></i>has a fault</span>
<span><i style='background:var(--still)'></i>stopped or held</span>
<span><i style='background:var(--halt)'></i>halted</span>
<span><i style='background:var(--job)'></i>a job</span>
<span>arrow: from who moves to the other side</span>
<span>in a lane: whom or what it waits for</span></p>
<p class='key keys'><span>left, right: a move (with shift 10)</span>
<span>page keys: 100</span>
<span>Home, End</span>
<span>up, down: a lane</span>
<span>n, p: the lane's next or previous move</span>
<span>+, -: wider, narrower</span></p>
<h2 id='when'></h2>
<div id='boxes'></div>
</main>
<script type='text/plain' id='data'>
";

/// The page behind its data: its script. It reads the data, makes the states before each move, the lanes and the bars, draws these, says what a
/// move does, shows the boxes, and takes keys and buttons.
pub const SCRIPT: &[u8] = b"
</script>
<script>
'use strict';
const get = id => document.getElementById(id);
const colour = { running: '#2f9e6b', calling: '#3a72c4', fault: '#c8452f', still: '#d99a1c', halted: '#9aa2ad', job: '#8a5bb5', none: '#e6e9ed' };
const isLane = text => text.startsWith('thread ') || text.startsWith('port with a native server');
const holder = text => { const found = / held by ([/0-9]+)/.exec(text); return found && text.startsWith('space') ? found[1] : null; };

// What a thread is at, by its words.
function mode(text) {
  if (text === undefined || !text.startsWith('thread ')) return 'none';
  if (text.includes('; fault')) return 'fault';
  if (text.includes('; stopped')) return 'still';
  const found = /^thread (running|calling|halted)/.exec(text);
  return found ? found[1] : 'none';
}

// Whom or what it waits for: the other side of its talk, or the port; who has its fault; or the call that it is at.
function whom(text) {
  const talk = /; talk at ([/0-9]+) with ([/0-9]*)/.exec(text);
  if (talk) return talk[2] || talk[1];
  const found = /; fault, .* (?:raised at|taken by) ([^;]+)/.exec(text) || /^thread calling at [0-9]+(?: [(][^)]*[)])?: ([^,;]+)/.exec(text);
  return found ? found[1] : '';
}

// The other side of the talk in which somebody moves: of a native server's act its client; of a call the talk's other thread or, of a native
// server, the port; of a call of a server its client, or whose fault it has taken.
function otherSide(state, who) {
  const text = state.get(who) || '', client = /, whose client is ([/0-9]+)/.exec(text), talk = /; talk at ([/0-9]+) with ([^,]+)/.exec(text);
  if (client) return client[1];
  if (!text.startsWith('thread calling')) return '';
  if (talk) return talk[2].startsWith('/') ? talk[2] : talk[2].startsWith('the port') ? talk[1] : '';
  for (const [path, other] of state) if (other.includes(' with ' + who + ',') || other.endsWith(' taken by ' + who)) return path;
  return '';
}

// The data are lines, with tabs between their parts: the trace's name; the lines of `lens steps`; before the first move and behind each, of each
// object that isn't as it was, = with the birth number of its space and its slot (=/ for the root), its path and what it is at, or nothing
// more where it is gone; at last why the run ends. Of a move is kept who made it, what that did, the registers, what servers were told, its
// pick, the other side, what has changed by paths (null for what is gone), whether its pick or the other side has a fault, and its label and line.
const D = (function read() {
  const lines = get('data').textContent.trim().split(String.fromCharCode(10)), data = { name: lines[0], end: '', first: [], moves: [] };
  const state = new Map(), pathOf = new Map();
  let objects = [], into = data.first;
  const changes = () => {
    const now = new Map();
    for (const [id] of objects) if (pathOf.has(id)) now.set(pathOf.get(id), null);
    for (const [id, path, text] of objects) if (path) { now.set(path, text); pathOf.set(id, path); } else pathOf.delete(id);
    objects = [];
    const changed = [...now].filter(([path, text]) => text !== (state.has(path) ? state.get(path) : null));
    for (const [path, text] of changed) if (text === null) state.delete(path); else state.set(path, text);
    return changed;
  };
  for (const line of lines.slice(2)) {
    const parts = line.split(String.fromCharCode(9));
    if (line.startsWith('=')) { objects.push(parts); continue; }
    into.push(...changes());
    if (parts.length === 1) { data.end = line; continue; }
    const [ids, , who, act, changed, told, place] = parts, pick = pathOf.get('=' + ids.split(' ')[1]) || '', other = otherSide(state, who);
    const fault = [pick, other].some(path => mode(state.get(path)) === 'fault');
    into = [];
    data.moves.push([who, act, changed, told, pick, other, into, fault, place]);
  }
  return data;
})();
const moves = D.moves, count = moves.length, LANE = 18, EVERY = 256;

// Paths in their order: a space before what lies in it, slots by their numbers.
const slots = path => path === '/' ? [] : path.slice(1).split('/').map(Number);
function byPath(a, b) {
  const x = slots(a), y = slots(b);
  for (let i = 0; i < Math.min(x.length, y.length); i++) if (x[i] !== y[i]) return x[i] - y[i];
  return x.length - y.length;
}

// The states before each 256th move; those between are made from them.
const kept = [];
function change(state, move) { for (const [path, text] of move[6]) { if (text === null) state.delete(path); else state.set(path, text); } }
function stateAt(at) {
  const state = new Map(kept[Math.floor(at / EVERY)]);
  for (let k = at - at % EVERY; k < at; k++) change(state, moves[k]);
  return state;
}

// The lanes, and in each what it was at from which move on; the spans of holds and of jobs.
const laneOf = new Map(), lanes = [], spans = new Map();
(function build() {
  const state = new Map(D.first), names = new Set(), segments = new Map(), holds = new Map(), jobs = new Map();
  const see = (path, text, at) => {
    if (text !== null && isLane(text)) names.add(path);
    if (names.has(path)) {
      const list = segments.get(path) || [];
      const now = text === null ? 'none' : mode(text), other = text === null ? '' : whom(text), last = list[list.length - 1];
      if (!last || last[1] !== now || last[2] !== other) list.push([at, now, other]);
      segments.set(path, list);
    }
    const who = text === null ? null : holder(text), open = holds.get(path);
    if (open && open.who !== who) {
      open.list.push([open.from, at, open.who]);
      holds.delete(path);
      spans.set('hold ' + path, open.list);
    }
    if (who && !holds.has(path)) holds.set(path, { from: at, who, list: spans.get('hold ' + path) || [] });
  };
  for (const [path, text] of state) see(path, text, 0);
  for (let k = 0; k < count; k++) {
    if (k % EVERY === 0) kept.push(new Map(state));
    change(state, moves[k]);
    for (const [path, text] of moves[k][6]) see(path, text, k + 1);
    const who = moves[k][0];
    names.add(who);
    if (who.endsWith('/255')) { const job = jobs.get(who) || [k, k, who]; job[1] = k + 1; jobs.set(who, job); }
  }
  if (count % EVERY === 0) kept.push(new Map(state));
  for (const [path, open] of holds) { open.list.push([open.from, count, open.who]); spans.set('hold ' + path, open.list); }
  for (const [who, job] of jobs) spans.set('job ' + who, [job]);
  for (const path of [...names].sort(byPath)) { laneOf.set(path, lanes.length); lanes.push({ path, list: segments.get(path) || [[0, 'none', '']], own: [] }); }
  moves.forEach((move, k) => lanes[laneOf.get(move[0])].own.push(k));
})();
const bars = [...spans.keys()].sort();

const wide = get('wide'), canvas = get('canvas'), pen = canvas.getContext('2d');
const rows = lanes.length + bars.length;
// The whole run is seen at first, where it fits.
let at = 0, chosen = 0, step = Math.max(1, Math.min(24, Math.floor(wide.clientWidth / Math.max(1, count))));

// The first place of a list whose value is past a number.
function past(list, value, of) {
  let low = 0, high = list.length;
  while (low < high) { const mid = (low + high) >> 1; if (of(list[mid]) <= value) low = mid + 1; else high = mid; }
  return low;
}

// Only what can be seen is drawn: the canvas is as wide as its window, and moves with it.
function draw() {
  const width = wide.clientWidth, left = wide.scrollLeft, scale = window.devicePixelRatio || 1;
  const from = Math.max(0, Math.floor(left / step) - 1), to = Math.min(count, Math.ceil((left + width) / step) + 1);
  canvas.width = width * scale; canvas.height = rows * LANE * scale;
  canvas.style.width = width + 'px'; canvas.style.height = rows * LANE + 'px';
  canvas.style.marginLeft = left + 'px'; canvas.style.marginRight = Math.max(0, count * step - left - width) + 'px';
  pen.setTransform(scale, 0, 0, scale, -left * scale, 0);
  pen.clearRect(left, 0, width, rows * LANE);
  lanes.forEach((lane, row) => drawLane(lane, row, from, to));
  bars.forEach((name, row) => drawBar(name, lanes.length + row, from, to));
  drawArrows(from, to);
  pen.strokeStyle = '#1d2430'; pen.lineWidth = 1;
  pen.strokeRect(at * step + .5, .5, Math.max(2, step) - 1, rows * LANE - 1);
}
function drawLane(lane, row, from, to) {
  const y = row * LANE, list = lane.list;
  for (let i = Math.max(0, past(list, from, s => s[0]) - 1); i < list.length && list[i][0] <= to; i++) {
    const end = i + 1 < list.length ? list[i + 1][0] : count;
    pen.fillStyle = colour[list[i][1]];
    pen.fillRect(list[i][0] * step, y + 6, Math.max(1, (end - list[i][0]) * step), 5);
  }
  pen.fillStyle = '#1d2430';
  for (let i = past(lane.own, from - 1, k => k); i < lane.own.length && lane.own[i] <= to; i++) {
    pen.fillRect(lane.own[i] * step, y + 3, Math.max(1, step - 1), 11);
  }
  drawWaits(lane, y, from, to);
}
// Between its moves, where there is room: whom it waits for.
function drawWaits(lane, y, from, to) {
  pen.font = '10px ui-monospace, monospace';
  const list = lane.list;
  for (let i = Math.max(0, past(list, from, s => s[0]) - 1); i < list.length && list[i][0] <= to; i++) {
    const name = list[i][2], stop = i + 1 < list.length ? list[i + 1][0] : count;
    if (!name) continue;
    let begin = Math.max(list[i][0], from);
    for (let k = past(lane.own, begin - 1, own => own); begin < stop && begin <= to; k++) {
      const end = Math.min(stop, k < lane.own.length ? lane.own[k] : count);
      if ((end - begin) * step >= name.length * 6.2 + 6) {
        pen.fillStyle = '#ffffff'; pen.fillRect(begin * step + 1, y + 3, pen.measureText(name).width + 4, 11);
        pen.fillStyle = '#1d2430'; pen.fillText(name, begin * step + 3, y + 12);
        break;
      }
      begin = end + 1;
    }
  }
}
function drawBar(name, row, from, to) {
  pen.fillStyle = name.startsWith('job') ? colour.job : colour.still;
  for (const [begin, end] of spans.get(name)) if (end >= from && begin <= to) pen.fillRect(begin * step, row * LANE + 4, Math.max(2, (end - begin) * step), 10);
}
function drawArrows(from, to) {
  pen.lineWidth = 1;
  for (let k = from; k < to; k++) {
    const [who, , , , pick, peer] = moves[k], other = laneOf.get(pick || peer);
    if (other === undefined || other === laneOf.get(who)) continue;
    const x = k * step + step / 2, a = laneOf.get(who) * LANE + LANE / 2, b = other * LANE + LANE / 2, d = b > a ? -4 : 4;
    pen.strokeStyle = pen.fillStyle = moves[k][7] ? colour.fault : '#5d6775';
    pen.beginPath(); pen.moveTo(x, a); pen.lineTo(x, b); pen.stroke();
    pen.beginPath(); pen.moveTo(x, b); pen.lineTo(x - 3, b + d); pen.lineTo(x + 3, b + d); pen.fill();
  }
}

function say(state) {
  const lines = [];
  if (at < count) {
    const [who, act, changed, told, , , , , place] = moves[at];
    lines.push('move ' + at + ' of ' + who + (place ? ' at ' + place : '') + ': ' + act);
    if (changed) lines.push('registers: ' + changed);
    if (told) lines.push('told: ' + told);
  } else lines.push(D.end);
  const lane = lanes[chosen];
  if (lane) lines.push(lane.path + ' before it: ' + (state.get(lane.path) || 'nothing is there'));
  get('said').textContent = lines.join(String.fromCharCode(10));
}

const clean = text => text.replace(/&/g, '&amp;').replace(/</g, '&lt;');
function boxes(state) {
  const fresh = new Set(at > 0 ? moves[at - 1][6].map(one => one[0]) : []);
  const inside = new Map();
  for (const path of [...state.keys()].sort(byPath)) {
    if (path === '/') continue;
    const parent = path.slice(0, path.lastIndexOf('/')) || '/';
    if (!inside.has(parent)) inside.set(parent, []);
    inside.get(parent).push(path);
  }
  const open = [], out = [];
  const begin = path => {
    const text = state.get(path) || '', list = inside.get(path) || [];
    const kind = 'box' + (holder(text) ? ' held' : '') + (fresh.has(path) ? ' new' : '');
    out.push('<div class=`' + kind + '`><b>' + path + '</b> ' + clean(text) + '<div class=things>');
    const spaces = [];
    for (const one of list) {
      const words = state.get(one);
      if (words.startsWith('space')) spaces.push(one);
      else {
        const look = 'thing ' + mode(words) + (fresh.has(one) ? ' new' : '');
        out.push('<div class=`' + look + '`>' + one + ' ' + clean(words) + '</div>');
      }
    }
    out.push('</div>');
    open.push(spaces.reverse());
  };
  begin('/');
  while (open.length) {
    const spaces = open[open.length - 1];
    if (spaces.length) begin(spaces.pop());
    else { open.pop(); out.push('</div>'); }
  }
  get('boxes').innerHTML = out.join('').replace(/`/g, String.fromCharCode(34));
}

let due = false;
function show() {
  if (due) return;
  due = true;
  requestAnimationFrame(() => {
    due = false;
    const state = stateAt(at);
    get('at').value = at;
    get('when').textContent = at < count ? 'before move ' + at : 'after the last move';
    [...get('names').children].forEach((one, row) => one.classList.toggle('chosen', row === chosen));
    say(state); boxes(state); draw();
  });
}
function go(to) {
  at = Math.max(0, Math.min(count, to));
  const x = at * step;
  const isSeen = x >= wide.scrollLeft && x <= wide.scrollLeft + wide.clientWidth - step;
  if (!isSeen) wide.scrollLeft = Math.max(0, x - wide.clientWidth / 2);
  show();
}
function choose(row) {
  chosen = Math.max(0, Math.min(lanes.length - 1, row));
  const one = get('names').children[chosen];
  if (one) one.scrollIntoView({ block: 'nearest' });
  show();
}
function zoom(to) { step = Math.max(1, Math.min(48, to)); draw(); go(at); }
function along(forward) {
  const own = lanes[chosen].own, place = past(own, forward ? at : at - 1, k => k);
  if (forward && place < own.length) go(own[place]);
  if (!forward && place > 0) go(own[place - 1]);
}

const keys = {
  ArrowRight: event => go(at + (event.shiftKey ? 10 : 1)), ArrowLeft: event => go(at - (event.shiftKey ? 10 : 1)),
  PageDown: () => go(at + 100), PageUp: () => go(at - 100), Home: () => go(0), End: () => go(count),
  ArrowDown: () => choose(chosen + 1), ArrowUp: () => choose(chosen - 1),
  n: () => along(true), p: () => along(false), '+': () => zoom(step * 2), '-': () => zoom(Math.floor(step / 2)),
};
addEventListener('keydown', event => {
  if (event.target.tagName === 'INPUT' || event.ctrlKey || event.metaKey || event.altKey) return;
  const act = keys[event.key];
  if (act) { event.preventDefault(); act(event); }
});
wide.addEventListener('scroll', () => requestAnimationFrame(draw));
addEventListener('resize', draw);
addEventListener('beforeprint', draw);
canvas.addEventListener('click', event => {
  const box = canvas.getBoundingClientRect();
  const row = Math.floor((event.clientY - box.top) / LANE);
  if (row < lanes.length) chosen = row;
  go(Math.floor((event.clientX - box.left + wide.scrollLeft) / step));
});
get('at').addEventListener('change', () => go(Number(get('at').value) || 0));
get('first').onclick = () => go(0); get('last').onclick = () => go(count);
get('back').onclick = () => go(at - 1); get('next').onclick = () => go(at + 1);
get('in').onclick = () => zoom(step * 2); get('out').onclick = () => zoom(Math.floor(step / 2));

document.title = 'lens ' + D.name;
get('title').textContent = 'lens ' + D.name;
get('of').textContent = 'of ' + count;
get('at').max = count;
for (const name of [...lanes.map(lane => lane.path), ...bars]) {
  const one = document.createElement('div');
  one.textContent = name; one.title = name;
  get('names').append(one);
}
[...get('names').children].forEach((one, row) => { if (row < lanes.length) one.onclick = () => choose(row); });
// The address may name a move, and a lane behind it, as page.html#50 and page.html#50,/1/0.
const [place, lane] = location.hash.slice(1).split(',');
choose(laneOf.get(lane) || 0);
go(Number(place) || 0);
</script>
</body>
</html>
";
