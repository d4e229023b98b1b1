//! The fixed text of a page that shows a run in a browser: what stands before the objects of the run, and what stands behind them. It asks for no server and
//! no library; all that it shows of a run it reads from the objects, and puts into the page as text.

/// What stands before the objects.
pub const PAGE_BEGIN: &str = r##"<!DOCTYPE html>
<html lang="en">
<head>
<meta charset="utf-8">
<meta name="viewport" content="width=device-width, initial-scale=1">
<meta http-equiv="Content-Security-Policy" content="default-src 'none'; style-src 'unsafe-inline'; script-src 'unsafe-inline'">
<title>Kazdrin: a run</title>
<style>
:root {
  color-scheme: light dark;
  --paper: #ffffff; --ink: #1c1e21; --quiet: #6b7178; --rule: #d7dade; --panel: #f5f6f8; --pick: #fff3c4;
  --lane: #b5bac1; --base: #e9ecef; --bad: #c01818; --hold: #c25e00; --good: #23803c; --bar: #ffd98a; --bar-edge: #a87b12;
  --setup: #cfe6ff; --stopping: #fff0b0; --completing: #ffd0a0; --emptying: #ffc4bd; --detached: #d4d6d9; --light: 37%; --names: 210px;
}
@media (prefers-color-scheme: dark) {
  :root {
    --paper: #16181b; --ink: #e4e6e9; --quiet: #9aa1a9; --rule: #353a40; --panel: #1f2226; --pick: #4a4013;
    --lane: #565d65; --base: #272b30; --bad: #ff6b6b; --hold: #ffa657; --good: #6fce85; --bar: #7a5c14; --bar-edge: #d9ab3d;
    --setup: #17344f; --stopping: #4b431a; --completing: #57391a; --emptying: #552722; --detached: #3a3d41; --light: 66%;
  }
}
* { box-sizing: border-box; }
html, body { height: 100%; margin: 0; }
body { display: flex; flex-direction: column; background: var(--paper); color: var(--ink); font: 13px/1.4 system-ui, sans-serif; }
header { display: flex; flex-wrap: wrap; gap: 4px 14px; align-items: center; padding: 6px 12px; border-bottom: 1px solid var(--rule); background: var(--panel); }
header h1 { font-size: 14px; margin: 0; }
#verdict { font-weight: 600; padding: 1px 8px; border-radius: 9px; border: 1px solid currentColor; color: var(--good); }
#verdict.bad { color: var(--bad); }
#figures { color: var(--quiet); }
#keys { color: var(--quiet); margin-left: auto; }
button { font: inherit; color: inherit; background: var(--paper); border: 1px solid var(--rule); border-radius: 4px; padding: 1px 8px; cursor: pointer; }
button:disabled { color: var(--quiet); cursor: default; }
:focus-visible { outline: 2px solid var(--hold); outline-offset: 1px; }
kbd { font: 11px ui-monospace, monospace; border: 1px solid var(--rule); border-radius: 3px; padding: 0 4px; background: var(--paper); }
#legend { display: none; gap: 4px 18px; flex-wrap: wrap; padding: 6px 12px; border-bottom: 1px solid var(--rule); }
#legend.shown { display: flex; }
#legend span { display: inline-flex; align-items: center; gap: 5px; }
#legend i { display: inline-block; width: 18px; height: 12px; border-radius: 2px; }
#chart { flex: 0 0 auto; height: 55%; min-height: 120px; overflow: auto; resize: vertical; border-bottom: 2px solid var(--rule); display: grid;
  grid-template-columns: var(--names) max-content; grid-template-rows: 20px max-content; align-content: start; }
#corner { position: sticky; left: 0; top: 0; z-index: 4; background: var(--panel); color: var(--quiet); font-size: 11px; padding: 2px 8px; border-right: 1px solid var(--rule); }
#axis { position: sticky; top: 0; z-index: 3; height: 20px; background: var(--panel); }
#names { position: sticky; left: 0; z-index: 2; background: var(--paper); border-right: 1px solid var(--rule); }
#names div { position: absolute; left: 8px; right: 4px; white-space: nowrap; overflow: hidden; text-overflow: ellipsis; font-size: 12px; }
#names .volume { font-weight: 600; }
#names .altitude, #names .base, #names .context, #names .refused { color: var(--quiet); }
#names .refused { font-size: 10px; }
#names .context { left: 20px; font-size: 10px; }
#plot { position: relative; }
svg { position: absolute; top: 0; display: block; overflow: visible; }
svg text { font: 10px system-ui, sans-serif; fill: var(--ink); paint-order: stroke; stroke: var(--paper); stroke-width: 2px; stroke-linejoin: round; }
#axis text { stroke: none; }
svg .name { font-weight: 600; }
svg .small { font-size: 9px; }
svg .number { fill: var(--quiet); text-anchor: middle; cursor: pointer; }
svg .number.bad { fill: var(--bad); font-weight: 700; }
svg .bad-text { fill: var(--bad); font-weight: 700; font-size: 9px; }
svg .limit-text { fill: var(--hold); font-weight: 700; font-size: 9px; }
svg .lane { stroke: var(--lane); }
svg .top { stroke: var(--ink); stroke-width: 1.5; }
svg .floor { fill: var(--base); }
svg .setup { fill: var(--setup); } svg .stopping { fill: var(--stopping); } svg .completing { fill: var(--completing); }
svg .emptying { fill: var(--emptying); } svg .detached { fill: var(--detached); }
svg .bar { fill: var(--bar); stroke: var(--bar-edge); }
svg .link { fill: var(--bar-edge); } svg .thread { stroke: var(--bar-edge); stroke-width: 1; }
svg .way { fill: none; stroke-width: 2; } svg .held { stroke-dasharray: 2 5; }
svg .hit { fill: transparent; cursor: pointer; }
svg .red { stroke: var(--bad); fill: none; stroke-width: 2.5; } svg .red-fill { fill: var(--bad); } svg .hold { stroke: var(--hold); stroke-width: 3.5; }
svg .told { fill: var(--bad); stroke: var(--paper); } svg .told.limit { fill: var(--hold); } svg .told-stroke { stroke: var(--paper); stroke-width: 1.5; }
svg .callback { stroke: var(--quiet); stroke-width: 2; fill: none; }
svg .here { fill: var(--pick); }
svg .faded { opacity: 0.18; }
#told { flex: 1 1 0; overflow: auto; margin: 0; padding: 4px 0 30px; font: 12px/1.5 ui-monospace, monospace; }
#told div { display: grid; grid-template-columns: 52px minmax(150px, 26ch) 1fr; gap: 0 12px; padding: 0 12px; cursor: pointer; }
#told div:hover { background: var(--panel); }
#told div.here { background: var(--pick); }
#told .line { color: var(--quiet); text-align: right; }
#told .command { overflow-wrap: anywhere; }
#told .words { white-space: pre-wrap; overflow-wrap: anywhere; }
#told .comment { color: var(--quiet); grid-column: 2 / 4; }
#told .Refused .words, #told .Leaked .words, #told .Told .words, #told .Unmet .words, #told .fault .words { color: var(--bad); }
#told .Held .words, #told .PostHeld .words, #told .limit .words { color: var(--hold); }
#told .End { cursor: default; border-top: 1px solid var(--rule); margin-top: 6px; padding-top: 6px; }
#tip { position: fixed; z-index: 9; max-width: 440px; padding: 5px 9px; background: var(--panel); border: 1px solid var(--quiet); border-radius: 5px;
  box-shadow: 0 3px 12px #0004; font: 12px/1.45 ui-monospace, monospace; white-space: pre-wrap; overflow-wrap: anywhere; pointer-events: none; display: none; }
#paper { display: none; }
@media (pointer: coarse), (max-width: 600px) {
  button { min-width: 40px; min-height: 40px; }
  #told div { min-height: 40px; align-content: center; }
  #keys { display: none; }
}
@media (max-width: 600px) {
  :root { --names: 110px; }
  #told div { grid-template-columns: 34px 1fr; gap: 0 8px; padding: 3px 8px; border-bottom: 1px solid var(--rule); }
  #told .words, #told .comment { grid-column: 2; }
  #told .command { font-weight: 600; }
  #told .command:empty { display: none; }
  #names div { font-size: 11px; }
}
@media print {
  @page { size: A4 landscape; margin: 10mm; }
  :root { color-scheme: light; --paper: #ffffff; --ink: #000000; --quiet: #555555; --rule: #cccccc; --panel: #ffffff; --pick: #ffffff; --lane: #b5bac1;
    --base: #e9ecef; --bad: #c01818; --hold: #c25e00; --good: #23803c; --bar: #ffd98a; --bar-edge: #a87b12; --setup: #cfe6ff; --stopping: #fff0b0;
    --completing: #ffd0a0; --emptying: #ffc4bd; --detached: #d4d6d9; --light: 37%; }
  * { print-color-adjust: exact; -webkit-print-color-adjust: exact; }
  html, body { height: auto; display: block; }
  header button, #chart, #tip, #keys, #legend { display: none !important; }
  #paper { display: block; }
  #paper svg { position: static; margin: 0 0 6mm; break-inside: avoid; max-width: 100%; height: auto; }
  #told { overflow: visible; font-size: 9px; }
  #told div { break-inside: avoid; }
}
</style>
</head>
<body>
<header>
<h1>Kazdrin: a run</h1>
<span id="verdict" role="status"></span>
<span id="figures"></span>
<button id="back" title="the event before" aria-label="the event before">&#8592;</button><button id="on" title="the next event" aria-label="the next event">&#8594;</button>
<button id="trouble" title="the next refusal, leak or fault">next trouble</button>
<button id="explain" aria-controls="legend">legend</button>
<span id="keys"><kbd>&#8592;</kbd> <kbd>&#8594;</kbd> step, <kbd>&#8593;</kbd> <kbd>&#8595;</kbd> line, <kbd>n</kbd> <kbd>p</kbd> trouble, <kbd>Esc</kbd> all operations</span>
</header>
<div id="legend" aria-label="What the marks mean"></div>
<div id="chart" role="region" aria-label="The run as a chart" tabindex="0"><div id="corner">line</div><div id="axis"></div><div id="names"></div><div id="plot"></div></div>
<div id="paper"></div>
<div id="told" role="list" aria-label="What happened, line by line" tabindex="0"></div>
<div id="tip" role="tooltip"></div>
<script type="application/json" id="run">
"##;

/// What stands behind the objects.
pub const PAGE_END: &str = r##"</script>
<script>
'use strict';
// A run is drawn from its objects: columns are what happened, in order; lanes are clients, instances by altitude, and file systems.
const CHUNK = 100, STEP = 15, LANE = 30, ROW = 13, ROWS = 12, BAR = 12, SVG = 'http://www.w3.org/2000/svg';
const HUES = [210, 22, 135, 280, 330, 45, 181, 90];
const SILENT = new Set(['Run', 'End', 'Comment', 'Became', 'Leaked', 'Told', 'Met', 'Unmet']);
const RETURNS = { preoperation: ['Pre'], postoperation: ['Post', 'PostHeld'], drain: ['Drained'] };
const PHASES = ['setup', 'stopping', 'completing', 'emptying', 'detached'];
const byId = (id) => document.getElementById(id);

// How wide the names of lanes are: less on a narrow screen.
const namesWidth = () => matchMedia('(max-width: 600px)').matches ? 110 : 210;

function readRun() {
  const all = [];
  for (const line of byId('run').textContent.split('\n')) {
    if (line === '') continue;
    try { all.push(JSON.parse(line)); } catch (fault) { break; }
  }
  return all;
}

// Altitudes are compared by their decimal values.
function compareAltitudes(one, other) {
  const parts = (text) => { const [whole, rest] = text.split('.'); return [whole.replace(/^0+/, ''), (rest || '').replace(/0+$/, '')]; };
  const [a, b] = [parts(one), parts(other)];
  if (a[0].length !== b[0].length) return a[0].length - b[0].length;
  if (a[0] !== b[0]) return a[0] < b[0] ? -1 : 1;
  return a[1] === b[1] ? 0 : a[1] < b[1] ? -1 : 1;
}

// What the run has: columns, instances, operations with their stops, contexts, shades, leaks, and what is told of callbacks.
function modelOf(all) {
  const run = { columns: [], rows: [], volumes: new Map(), instances: new Map(), operations: new Map(), contexts: new Map(), shades: [], leaks: [], mistakes: [], trouble: [], end: null };
  for (const told of all) {
    if (!SILENT.has(told.event)) { told.column = run.columns.length; run.columns.push(told); }
    const at = returnOf(run, told, Math.max(run.columns.length - 1, 0));
    if (told.column === undefined && told.event !== 'Run') told.near = at;
    if (told.event !== 'Run' && told.event !== 'Became') run.rows.push(told);
    note(run, told, at);
  }
  return run;
}

// A trial tells of a callback once its whole request is over: the column is that of the callback's return. Anything else is where the run is.
function returnOf(run, told, at) {
  if (told.event !== 'Told' && told.event !== 'Leaked') return at;
  const names = RETURNS[told.callback] || [];
  for (let column = at; column >= 0 && run.columns[column]; column -= 1) {
    const other = run.columns[column];
    if (names.includes(other.event) && other.operation === told.operation && other.instance === told.instance) return column;
  }
  return at;
}

function note(run, told, at) {
  if (told.event === 'Mounted') run.volumes.set(told.volume, { id: told.volume, name: told.name });
  if (told.event === 'Attached' || told.event === 'InSetup') run.instances.set(told.instance, { ...told, id: told.instance, born: at, changes: [] });
  if (told.event === 'Became' && run.instances.has(told.instance)) run.instances.get(told.instance).changes.push({ at, phase: told.phase });
  if (told.event === 'Began') run.operations.set(told.operation, { id: told.operation, told, stops: [], at });
  if (told.event === 'Allocated') run.contexts.set(told.context, { id: told.context, kind: told.kind, owner: told.owner, from: at, until: null, links: [] });
  if (told.context && run.contexts.has(told.context)) noteContext(run.contexts.get(told.context), told, at);
  if (told.event === 'Run') run.told = told;
  if (told.event === 'Leaked') run.leaks.push({ ...told, at });
  if (told.event === 'Told') run.mistakes.push({ told, at, before: run.mistakes.filter((one) => one.at === at && one.told.instance === told.instance).length });
  if (told.event === 'End') run.end = told;
  if (told.operation && run.operations.has(told.operation)) run.operations.get(told.operation).stops.push(told);
  if (isTrouble(told)) run.trouble.push(told);
}

function noteContext(context, told, at) {
  if (told.event === 'Cleaned') context.until = at;
  if (['Set', 'Got', 'TakenOff', 'Pre', 'InCleanup', 'Referenced', 'Released'].includes(told.event)) context.links.push({ at, event: told.event });
}

function isTrouble(told) {
  return ['Refused', 'Leaked', 'Told', 'Unmet'].includes(told.event) || (told.event === 'Base' && told.status === 18);
}

function labelOf(told) {
  const file = told.path !== undefined ? told.path + ' ' + told.mode : told.handle || told.volume || '';
  const range = told.from !== undefined ? ' ' + told.from + '..' + told.until : told.size !== undefined ? ' ' + told.size : '';
  return told.operation + ' ' + told.request + ' ' + file + range;
}

// Where everything is, from the top.
function layOut(run) {
  run.lanes = [{ kind: 'refused', y: 13, text: 'refused, elsewhere than at an instance' }];
  let top = 28;
  for (const volume of run.volumes.values()) {
    const here = [...run.operations.values()].filter((operation) => (operation.told.volume || 'v0') === volume.id);
    const rows = placeNames(here);
    volume.y = top + rows * ROW + 12;
    run.lanes.push({ kind: 'volume', y: volume.y, text: volume.id + ' ' + volume.name });
    here.forEach((operation) => { operation.top = volume.y; operation.labelY = top + operation.row * ROW + 9; });
    top = volume.y + 10;
    const stack = [...run.instances.values()].filter((instance) => instance.volume === volume.id);
    stack.sort((one, other) => compareAltitudes(other.altitude, one.altitude) || one.born - other.born);
    for (const instance of stack) top = placeInstance(run, instance, top);
    volume.floor = top;
    run.lanes.push({ kind: 'base', y: top + LANE / 2, text: 'file system of ' + volume.id });
    top += LANE + 16;
  }
  run.height = top;
}

// A name goes below all that reach over its beginning, so that its stalk crosses none.
function placeNames(operations) {
  const ends = [];
  for (const operation of operations) {
    operation.label = labelOf(operation.told).slice(0, 40);
    const x = operation.at * STEP;
    let row = 0;
    ends.forEach((end, at) => { if (end > x) row = at + 1; });
    operation.row = row < ROWS ? row : null;
    if (row < ROWS) ends[row] = x + operation.label.length * 6 + 12;
  }
  return ends.length;
}

// An instance, and under it its contexts: a row is used again once its context is cleaned up.
function placeInstance(run, instance, top) {
  instance.y = top + LANE / 2;
  instance.top = top;
  const ends = [];
  for (const context of run.contexts.values()) {
    if (context.owner !== instance.id) continue;
    let row = ends.findIndex((end) => end <= context.from);
    if (row < 0) row = ends.length;
    ends[row] = context.until === null ? Infinity : context.until + 3;
    context.y = top + LANE - 2 + row * BAR;
    context.laneY = instance.y;
  }
  instance.height = LANE + ends.length * BAR;
  run.lanes.push({ kind: 'instance', y: instance.y, text: instance.id + ' ' + instance.name, altitude: instance.altitude });
  if (ends.length > 0) run.lanes.push({ kind: 'context', y: top + LANE + 3, text: ends.length === 1 ? 'its contexts' : 'its contexts, ' + ends.length + ' at once' });
  return top + instance.height;
}

// The stops of an operation on its way, with how far down each is.
function waysOf(run) {
  for (const operation of run.operations.values()) {
    const volume = run.volumes.get(operation.told.volume || 'v0');
    operation.way = [];
    for (const told of operation.stops) {
      const y = volume && stopY(run, volume, told);
      if (y && told.column !== undefined) operation.way.push({ told, x: told.column, y });
    }
    const last = operation.way[operation.way.length - 1];
    operation.isOver = last !== undefined && last.told.event === 'Replied';
    operation.isHeld = last !== undefined && holds(last.told);
  }
  nameFailures(run);
}

// A failure has the name of its status beside it, unless that would run into the one before in the same lane.
function nameFailures(run) {
  const ends = new Map();
  const all = [...run.operations.values()].flatMap((operation) => operation.way.filter((stop) => isFailure(stop.told)));
  all.sort((one, other) => one.x - other.x);
  for (const stop of all) {
    stop.isNamed = xOf(stop.x) >= (ends.get(stop.y) || 0);
    if (stop.isNamed) ends.set(stop.y, xOf(stop.x) + (stop.told.status_name || '').length * 5.6 + 8);
  }
}

function isFailure(told) {
  if (told.event === 'Pre' || told.event === 'Resumed') return told.verdict === 'complete';
  return told.status !== undefined && told.status !== 0;
}

function holds(told) {
  return told.event === 'PostHeld' || (told.event === 'Pre' && told.verdict === 'pend');
}

function stopY(run, volume, told) {
  const instance = run.instances.get(told.instance);
  switch (told.event) {
    case 'Began': case 'Replied': return volume.y;
    case 'InBase': case 'Base': return volume.floor + LANE / 2;
    case 'Known': return volume.floor - 1;
    case 'InPre': case 'Pre': case 'InPost': case 'Post': case 'PostHeld': case 'InDrain': case 'Drained': case 'Resumed': case 'PostResumed':
      return instance && instance.y;
    default: return undefined;
  }
}

// Drawing: each function adds to an SVG what lies between two columns.
function add(parent, name, attributes, text) {
  const element = document.createElementNS(SVG, name);
  for (const key in attributes) element.setAttribute(key, attributes[key]);
  if (text !== undefined) element.textContent = text;
  parent.appendChild(element);
  return element;
}

const xOf = (column) => column * STEP + STEP / 2;
const colourOf = (id) => 'hsl(' + HUES[Number(id.slice(1)) % 8] + ' 62% var(--light))';

function drawWindow(svg, run, from, until, chosen) {
  const right = xOf(Math.min(until, run.columns.length));
  const left = Math.max(xOf(from) - STEP, 0);
  drawLanes(svg, run, left, right, from, until);
  if (chosen !== null) add(svg, 'rect', { class: 'here', x: xOf(chosen) - STEP / 2, y: 0, width: STEP, height: run.height });
  for (const context of run.contexts.values()) drawContext(svg, run, context, from, until, right);
  for (const operation of run.operations.values()) drawWay(svg, run, operation, from, until);
  for (const context of run.contexts.values()) nameContext(svg, run, context, from, until);
  for (let column = from; column < until && column < run.columns.length; column += 1) drawOwn(svg, run, run.columns[column]);
  for (const leak of run.leaks) if (leak.at >= from && leak.at <= until) drawLeak(svg, run, leak);
  for (const mistake of run.mistakes) if (mistake.at >= from && mistake.at <= until) drawTold(svg, run, mistake);
}

function drawLanes(svg, run, left, right, from, until) {
  for (const instance of run.instances.values()) {
    if (instance.y === undefined) continue;
    instance.changes.forEach((change, at) => {
      const next = instance.changes[at + 1];
      const end = next ? next.at : run.columns.length;
      if (!PHASES.includes(change.phase) || end < from || change.at > until) return;
      const x = Math.max(xOf(change.at), left);
      add(svg, 'rect', { class: change.phase, x, y: instance.top + 2, width: Math.max(Math.min(xOf(end), right) - x, 0), height: instance.height - 4 });
    });
    if (instance.born <= until) add(svg, 'line', { class: 'lane', x1: Math.max(xOf(instance.born), left), x2: right, y1: instance.y, y2: instance.y });
  }
  for (const volume of run.volumes.values()) {
    add(svg, 'line', { class: 'top', x1: left, x2: right, y1: volume.y, y2: volume.y });
    add(svg, 'rect', { class: 'floor', x: left, y: volume.floor + 4, width: Math.max(right - left, 0), height: LANE - 8 });
  }
}

function drawContext(svg, run, context, from, until, right) {
  const end = context.until === null ? run.columns.length : context.until;
  if (context.y === undefined || end < from || context.from > until) return;
  const x = xOf(Math.max(context.from, from - 1));
  add(svg, 'rect', { class: 'bar', x, y: context.y, width: Math.max(Math.min(xOf(end), right) - x, 2), height: 8, rx: 3, 'data-context': context.id });
  for (const link of context.links) {
    if (link.at < from || link.at > until) continue;
    add(svg, 'line', { class: 'thread', x1: xOf(link.at), x2: xOf(link.at), y1: context.laneY, y2: context.y + 4 });
    if (link.event === 'Set') add(svg, 'circle', { class: 'link', cx: xOf(link.at), cy: context.y + 4, r: 3.5 });
  }
}

// The name of a context, above the ways that cross its bar.
function nameContext(svg, run, context, from, until) {
  if (context.y === undefined || context.from < from - 8 || context.from > until) return;
  const dot = context.links.find((link) => link.event === 'Set' && link.at < context.from + 5);
  const x = dot ? xOf(dot.at) + 6 : xOf(context.from) + 4;
  // A leak that stands there names it too.
  if (run.leaks.some((leak) => leak.context === context.id && Math.abs(xOf(leak.at) - x) < 70)) return;
  add(svg, 'text', { class: 'small', x, y: context.y + 7.5 }, context.id + ' ' + context.kind);
}

function drawWay(svg, run, operation, from, until) {
  const colour = colourOf(operation.id);
  const group = add(svg, 'g', { 'data-operation': operation.id, class: run.only && run.only !== operation.id ? 'faded' : '' });
  let last = null;
  for (const stop of operation.way) {
    if (last && stop.x >= from && last.x <= until) drawLeg(group, last, stop, colour);
    if (stop.x >= from && stop.x <= until) drawMark(group, stop, colour);
    last = stop;
  }
  if (last && !operation.isOver) drawOpenEnd(group, run, operation, last, colour, until);
  if (operation.row !== null && operation.labelY !== undefined && operation.at >= from - 20 && operation.at <= until) {
    add(group, 'line', { x1: xOf(operation.at), x2: xOf(operation.at), y1: operation.labelY, y2: operation.top, stroke: colour, 'stroke-width': 0.7 });
    add(group, 'text', { class: 'name', x: xOf(operation.at) + 3, y: operation.labelY, style: 'fill:' + colour }, operation.label);
  }
}

function drawLeg(group, last, stop, colour) {
  add(group, 'path', { class: 'way' + (holds(last.told) ? ' held' : ''), d: 'M' + xOf(last.x) + ' ' + last.y + 'H' + xOf(stop.x) + 'V' + stop.y, stroke: colour });
}

function drawOpenEnd(group, run, operation, last, colour, until) {
  const end = xOf(run.columns.length);
  add(group, 'path', { class: 'way' + (operation.isHeld ? ' held' : ''), d: 'M' + xOf(last.x) + ' ' + last.y + 'H' + end, stroke: colour });
  if (until >= run.columns.length - 1) add(group, 'text', { class: 'bad-text', x: end + 4, y: last.y + 3 }, operation.id + (operation.isHeld ? ' HELD' : ' under way'));
}

function drawMark(group, stop, colour) {
  const x = xOf(stop.x), y = stop.y, told = stop.told, at = 'M' + x + ' ' + y;
  if (isFailure(told)) drawFailure(group, x, y, stop);
  else if (holds(told)) add(group, 'path', { class: 'hold', d: at + 'm-3 -7v14m6 -14v14' });
  else if (told.event === 'Pre' || told.event === 'Resumed') add(group, 'circle', { cx: x, cy: y, r: 4.5, stroke: colour, 'stroke-width': 1.5, style: 'fill:' + (told.verdict === 'none' ? 'var(--paper)' : colour) });
  else if (told.event === 'Post') add(group, 'path', { d: at + 'm-5 4l5 -9l5 9z', style: 'fill:' + colour });
  else if (told.event === 'PostResumed') add(group, 'circle', { cx: x, cy: y, r: 4.5, style: 'fill:' + colour });
  else if (told.event === 'Drained') add(group, 'path', { class: 'red', d: at + 'm-5 -5l10 10m0 -10l-10 10' });
  else if (told.event === 'Known') add(group, 'path', { d: at + 'm-4 -4h8v8h-8z', stroke: colour, 'stroke-width': 1.5, style: 'fill:var(--paper)' });
  else if (told.event === 'Base' || told.event === 'Replied') add(group, 'path', { d: at + 'm-3 -3h6v6h-6z', style: 'fill:' + colour });
  drawHit(group, told, x, y);
}

function drawFailure(group, x, y, stop) {
  const told = stop.told;
  if (told.event === 'Base' && told.status === 18) add(group, 'path', { class: 'red-fill', d: 'M' + x + ' ' + y + 'm2 -9l-8 11h5l-2 8l8 -12h-5z' });
  else add(group, 'path', { class: 'red-fill', d: 'M' + x + ' ' + y + 'm-5 -5h10v10h-10z' });
  if (stop.isNamed) add(group, 'text', { class: 'bad-text', x: x + 6, y: y - 5 }, told.status_name);
}

// What a place answers to the pointer.
function drawHit(parent, told, x, y) {
  const hit = add(parent, 'rect', { class: 'hit', x: x - STEP / 2, y: y - 10, width: STEP, height: 20 });
  hit.told = told;
}

// What is no part of a way: refusals, callbacks of setups and teardowns, early drains, contexts, ends.
function drawOwn(svg, run, told) {
  const x = xOf(told.column);
  const instance = run.instances.get(told.instance);
  const y = instance ? instance.y : undefined;
  const volume = run.volumes.get(told.volume);
  if (told.event === 'Refused') drawRefused(svg, told, x, y);
  else if (told.event === 'EarlyDrained' && y) add(svg, 'path', { class: 'red', d: 'M' + x + ' ' + y + 'm-5 -5l10 10m0 -10l-10 10' });
  else if (told.event === 'InEarlyDrain' && y) add(svg, 'circle', { class: 'red', cx: x, cy: y, r: 3 });
  else if (['InSetup', 'InQuery', 'InStart', 'InComplete', 'InRoutine'].includes(told.event) && y) add(svg, 'path', { class: 'callback', d: 'M' + (x + 4) + ' ' + (y - 8) + 'h-6v16h6' });
  else if (['SetUp', 'Queried', 'Started', 'Completed', 'RoutineReturned'].includes(told.event) && y) add(svg, 'path', { class: 'callback', d: 'M' + (x - 4) + ' ' + (y - 8) + 'h6v16h-6' });
  else if (['Dismounting', 'VolumeEmptied', 'VolumeFinished', 'Dropped'].includes(told.event) && volume) drawEnd(svg, told, x, volume.y);
  const context = run.contexts.get(told.context);
  if (context && context.y !== undefined && told.event !== 'Pre') drawHit(svg, told, x, context.y + 4);
  else if (told.event !== 'Refused' && (!told.operation || ['InEarlyDrain', 'EarlyDrained'].includes(told.event))) drawHit(svg, told, x, y || (volume ? volume.y : 14));
}

function drawRefused(svg, told, x, y) {
  const place = y === undefined ? 13 : y - 11;
  add(svg, 'path', { class: 'red', d: 'M' + x + ' ' + place + 'm-4 0a4 4 0 1 0 8 0a4 4 0 1 0 -8 0m1 3l6 -6' });
  drawHit(svg, told, x, place);
}

function drawEnd(svg, told, x, y) {
  add(svg, 'path', { class: 'callback', d: 'M' + x + ' ' + (y - 7) + 'v14' });
  if (told.event !== 'Dropped') add(svg, 'text', { class: 'small', x: x + 3, y: y + 10 }, { Dismounting: 'dismount', VolumeEmptied: 'emptied', VolumeFinished: 'dismounted' }[told.event]);
}

function drawLeak(svg, run, leak) {
  const context = run.contexts.get(leak.context);
  const instance = run.instances.get(leak.instance);
  const x = xOf(leak.at);
  if (!instance || instance.y === undefined) return;
  add(svg, 'circle', { class: 'red', cx: x, cy: instance.y, r: 8 });
  if (context && context.y !== undefined) {
    add(svg, 'path', { class: 'red', d: 'M' + x + ' ' + (instance.y + 8) + 'V' + (context.y + 4), 'stroke-dasharray': '2 2', 'stroke-width': 1 });
    add(svg, 'text', { class: 'bad-text', x: x + 5, y: context.y + 8 }, 'LEAKED ' + leak.context);
  }
  drawHit(svg, leak, x, instance.y);
}

// What is told of a callback stands above its lane, and what no instance did above all. Of several at one place the first has its number beside it.
function drawTold(svg, run, { told, at, before }) {
  const instance = run.instances.get(told.instance), kind = told.telling === 'limit' ? ' limit' : '';
  const x = xOf(at) + before * 10, y = instance && instance.y !== undefined ? instance.y - 9 : 20;
  add(svg, 'path', { class: 'told' + kind, d: 'M' + x + ' ' + y + 'l7 -12h-14z' });
  add(svg, 'path', { class: 'told-stroke', d: 'M' + x + ' ' + (y - 11) + 'v4m0 2v1.5' });
  if (before === 0) add(svg, 'text', { class: kind ? 'limit-text' : 'bad-text', x: x + 8, y: y - 13 }, told.id);
  const hit = add(svg, 'rect', { class: 'hit', x: x - 7, y: y - 13, width: 14, height: 13 });
  hit.told = told;
}

// The numbers of the lines: each at its first column, unless it would run into the one before.
function drawAxis(svg, run, from, until) {
  let free = -1;
  let line = from > 0 ? run.columns[from - 1].line : 0;
  for (let column = from; column < until && column < run.columns.length; column += 1) {
    const told = run.columns[column];
    if (told.line === line && told.event !== 'Refused') continue;
    line = told.line;
    if (xOf(column) < free) continue;
    const text = add(svg, 'text', { class: 'number' + (told.event === 'Refused' ? ' bad' : ''), x: xOf(column), y: 14 }, String(line));
    text.told = told;
    free = xOf(column) + String(line).length * 6 + 8;
  }
}

// The page: the chart draws what is in view; the list below has all that was told.
const run = modelOf(readRun());
layOut(run);
waysOf(run);
let chosen = null;
let drawn = null;

function drawView(force) {
  const chart = byId('chart');
  const margin = 60;
  const first = Math.floor(chart.scrollLeft / STEP), count = Math.ceil(chart.clientWidth / STEP);
  if (!force && drawn && first >= drawn[0] && first + count <= drawn[1]) return;
  drawn = [Math.max(first - margin, 0), first + count + margin];
  for (const [id, height, draw] of [['axis', 20, (svg) => drawAxis(svg, run, ...drawn)], ['plot', run.height, (svg) => drawWindow(svg, run, ...drawn, chosen)]]) {
    const svg = document.createElementNS(SVG, 'svg');
    svg.setAttribute('width', run.columns.length * STEP + 110);
    svg.setAttribute('height', height);
    svg.setAttribute('role', 'img');
    svg.setAttribute('aria-label', id === 'axis' ? 'The numbers of lines' : chartWords());
    draw(svg);
    byId(id).replaceChildren(svg);
  }
}

// What the chart shows, for who can't see it: the list below has the same.
function chartWords() {
  return run.operations.size + ' operations through ' + run.instances.size + ' instances on ' + run.volumes.size + ' volumes; the list below tells the same line by line';
}

function fillNames(parent) {
  for (const lane of run.lanes) {
    const name = document.createElement('div');
    name.className = lane.kind;
    name.style.top = (lane.y - 9) + 'px';
    name.textContent = lane.text;
    name.title = lane.text + (lane.altitude ? ' at ' + lane.altitude : '');
    if (lane.altitude) {
      const altitude = document.createElement('span');
      altitude.className = 'altitude';
      altitude.textContent = '  ' + lane.altitude;
      name.appendChild(altitude);
    }
    parent.appendChild(name);
  }
}

function cell(row, name, text) {
  const element = document.createElement('span');
  element.className = name;
  element.textContent = text;
  row.appendChild(element);
}

// A row of the list, with its line and command unless those of the row before are the same.
function rowOf(told, before) {
  const row = document.createElement('div'), isSame = before !== undefined && before.line === told.line;
  row.className = told.event + (told.event === 'Base' && told.status === 18 ? ' fault' : '') + (told.telling === 'limit' ? ' limit' : '') + (told === run.here ? ' here' : '');
  row.setAttribute('role', 'listitem');
  row.told = told;
  told.row = row;
  cell(row, 'line', isSame || told.event === 'End' ? '' : String(told.line));
  if (told.event === 'Comment') cell(row, 'comment', told.command);
  else {
    cell(row, 'command', isSame ? '' : told.command || (told.expected !== undefined ? '#! expect ' + told.expected : ''));
    cell(row, 'words', wordsOf(told));
  }
  return row;
}

// The list stands in chunks. One has its rows as long as it is near what is seen; else it has their height, which is a guess before it was seen.
function fillList() {
  const list = byId('told'), near = new IntersectionObserver((seen) => seen.forEach(noteSeen), { root: list, rootMargin: '600px' });
  run.chunks = [];
  for (let from = 0; from < run.rows.length; from += CHUNK) {
    const chunk = document.createElement('section');
    chunk.setAttribute('role', 'none');
    chunk.from = from;
    chunk.style.height = Math.min(CHUNK, run.rows.length - from) * 18 + 'px';
    run.chunks.push(chunk);
    list.appendChild(chunk);
    near.observe(chunk);
  }
  run.rows.forEach((told, at) => { told.at = at; });
}

function noteSeen(seen) {
  seen.target.isNear = seen.isIntersecting;
  if (seen.isIntersecting) fillChunk(seen.target);
  else emptyChunk(seen.target);
}

function fillChunk(chunk) {
  if (chunk.firstChild) return;
  for (let at = chunk.from; at < Math.min(chunk.from + CHUNK, run.rows.length); at += 1) chunk.appendChild(rowOf(run.rows[at], run.rows[at - 1]));
  chunk.style.height = '';
}

function emptyChunk(chunk) {
  if (!chunk.firstChild) return;
  chunk.style.height = chunk.offsetHeight + 'px';
  for (const row of chunk.children) row.told.row = null;
  chunk.replaceChildren();
}

function wordsOf(told) {
  if (told.event === 'Met') return 'as expected';
  if (told.event === 'Unmet') return 'NOT AS EXPECTED: it answered ' + told.answered.join(', ');
  return told.words || '';
}

function choose(told, fromList) {
  if (run.here && run.here.row) run.here.row.classList.remove('here');
  run.here = told;
  if (told.at !== undefined) fillChunk(run.chunks[Math.floor(told.at / CHUNK)]);
  if (told.row) told.row.classList.add('here');
  chosen = told.column !== undefined ? told.column : told.near;
  const chart = byId('chart');
  const x = xOf(chosen || 0), view = chart.clientWidth - namesWidth();
  if (x < chart.scrollLeft + 40 || x > chart.scrollLeft + view - 60) chart.scrollLeft = Math.max(x - view / 2, 0);
  drawView(true);
  if (!fromList && told.row) told.row.scrollIntoView({ block: 'center' });
  history.replaceState(null, '', '#L' + told.line);
}

function showTip(event) {
  const told = event.target.told, tip = byId('tip');
  if (!told || !told.words) { tip.style.display = 'none'; return; }
  tip.textContent = 'line ' + told.line + (told.command ? '  ' + told.command : '') + '\n' + told.words;
  tip.style.display = 'block';
  tip.style.left = Math.min(event.clientX + 14, innerWidth - tip.offsetWidth - 6) + 'px';
  tip.style.top = Math.min(event.clientY + 16, innerHeight - tip.offsetHeight - 6) + 'px';
}

function clickChart(event) {
  const told = event.target.told;
  if (!told) return;
  run.only = told.operation && told.event !== 'Refused' ? told.operation : null;
  choose(told, false);
}

function clickList(event) {
  const row = event.target.closest('#told div');
  if (!row || row.told.event === 'End') return;
  run.only = row.told.operation || null;
  choose(row.told, true);
}

// The event so many columns on, or the first one of another line.
function step(by, isLine) {
  if (run.columns.length === 0) return;
  let at = chosen === null ? (by > 0 ? -1 : run.columns.length) : chosen;
  const line = chosen === null ? 0 : run.columns[chosen].line;
  do { at += by; } while (isLine && run.columns[at] && run.columns[at].line === line);
  const told = run.columns[Math.min(Math.max(at, 0), run.columns.length - 1)];
  choose(told, false);
}

function stepTrouble(by) {
  const where = (told) => told.column !== undefined ? told.column : told.near + 0.5;
  const here = run.trouble.includes(run.at) && run.at ? where(run.at) : chosen === null ? -1 : chosen;
  const all = by > 0 ? run.trouble : [...run.trouble].reverse();
  const next = all.find((told) => by > 0 ? where(told) > here : where(told) < here) || all[0];
  if (next) { run.at = next; choose(next, false); }
}

function pressKey(event) {
  if (event.ctrlKey || event.metaKey || event.altKey) return;
  const moves = {
    ArrowRight: () => step(1, false), ArrowLeft: () => step(-1, false), ArrowDown: () => step(1, true), ArrowUp: () => step(-1, true),
    n: () => stepTrouble(1), p: () => stepTrouble(-1), Escape: () => { run.only = null; drawView(true); }, '?': () => byId('legend').classList.toggle('shown'),
  };
  if (moves[event.key]) { moves[event.key](); event.preventDefault(); }
}

// What the marks mean.
function fillLegend() {
  const marks = [
    ['circle', { cx: 9, cy: 8, r: 4.5, style: 'fill:var(--quiet)' }, 'preoperation, asks to come back'],
    ['circle', { cx: 9, cy: 8, r: 4.5, stroke: 'var(--quiet)', style: 'fill:var(--paper)' }, 'passes it on'],
    ['path', { class: 'hold', d: 'M9 8m-3 -7v14m6 -14v14' }, 'holds it; dots until it is let go on, by a circle'],
    ['path', { d: 'M9 8m-5 4l5 -9l5 9z', style: 'fill:var(--quiet)' }, 'postoperation'],
    ['path', { class: 'red', d: 'M9 8m-5 -5l10 10m0 -10l-10 10' }, 'drained'],
    ['circle', { class: 'red', cx: 9, cy: 8, r: 3 }, 'a drain of a teardown begins'],
    ['path', { d: 'M6 5h6v6h-6z', style: 'fill:var(--quiet)' }, 'the answer of the file system, or the reply'],
    ['path', { class: 'red-fill', d: 'M4 3h10v10h-10z' }, 'ended or failed, with its status'],
    ['path', { d: 'M5 4h8v8h-8z', stroke: 'var(--quiet)', style: 'fill:var(--paper)' }, 'answered without the file system'],
    ['path', { class: 'red-fill', d: 'M11 0l-8 11h5l-2 8l8 -12h-5z' }, 'device fault'],
    ['path', { class: 'red', d: 'M9 8m-4 0a4 4 0 1 0 8 0a4 4 0 1 0 -8 0m1 3l6 -6' }, 'the line was refused'],
    ['circle', { class: 'red', cx: 9, cy: 8, r: 7 }, 'left a reference behind'],
    ['path', { class: 'told', d: 'M9 14l7 -12h-14z' }, 'a mistake of a filter, with its number'],
    ['path', { class: 'told limit', d: 'M9 14l7 -12h-14z' }, 'a limit of the model, with its number'],
    ['path', { class: 'callback', d: 'M6 0h-4v16h4m6 -16h4v16h-4' }, 'a callback of a setup or a teardown, from entry to return'],
    ['path', { class: 'callback', d: 'M9 1v14' }, 'a dismount, or a handle that it closes'],
    ['rect', { class: 'bar', x: 0, y: 4, width: 18, height: 8, rx: 3 }, 'a context, until its cleanup; a dot where it is set'],
    ['path', { class: 'thread', d: 'M9 0v16' }, 'a callback takes a reference, or gives one back'],
    ['rect', { class: 'here', x: 2, y: 0, width: 14, height: 16 }, 'the line that is chosen'],
  ];
  for (const [name, attributes, text] of marks) {
    const span = document.createElement('span');
    const svg = document.createElementNS(SVG, 'svg');
    svg.setAttribute('width', 18); svg.setAttribute('height', 17);
    svg.style.position = 'static';
    add(svg, name, attributes);
    span.append(svg, text);
    byId('legend').appendChild(span);
  }
  for (const phase of PHASES) {
    const span = document.createElement('span'), shade = document.createElement('i');
    shade.style.background = 'var(--' + phase + ')';
    span.append(shade, phase);
    byId('legend').appendChild(span);
  }
}

// So many of something, in words.
function many(count, one, more) {
  return count === 1 ? one : count + ' ' + more;
}

// Why the run didn't end well, by its figures.
function causesOf(end) {
  const causes = [];
  if (end.told > 0) causes.push(many(end.told, 'a mistake was told', 'mistakes were told'));
  if (end.dropped > 0) causes.push('not all was kept of what could be told');
  if (!isTrial() && end.leaks > 0) causes.push(many(end.leaks, 'a reference was left behind', 'references were left behind'));
  if (!isTrial() && end.held > 0) causes.push(many(end.held, 'an operation is held', 'operations are held'));
  if (!isTrial() && end.misuses > 0) causes.push(many(end.misuses, "a line gave back or let go on what it didn't have", "lines gave back or let go on what they didn't have"));
  return causes.join(', ');
}

// What the run came to, in words.
function verdictOf(end) {
  const words = { WrongLine: "a line says nothing that can be read", NoMemory: 'no memory', ReadFault: 'not read to its end', WriteFault: 'not written' };
  const causes = causesOf(end);
  if (end.verdict === 'Well' && run.columns.length === 0) return 'nothing happened';
  if (end.verdict === 'Well') return causes === '' ? 'well' : 'as expected: ' + causes;
  if (end.verdict === 'Left') return causes || 'something is left behind';
  if (end.verdict === 'Unexpected') return many(end.unmet, "one thing isn't as expected", "things aren't as expected");
  return words[end.verdict];
}

// The figures of a run. Where there is no trouble it says so.
function figuresOf(end) {
  if (run.columns.length === 0) return 'no line did anything, so there is nothing to show';
  const told = isTrial() ? many(end.told, '1 mistake told, ', 'mistakes told, ') : '';
  const left = many(end.leaks, '1 reference', 'references') + ' left behind, ' + many(end.held, '1 operation', 'operations') + ' held, ';
  const figures = many(end.line, '1 line', 'lines') + ', ' + end.refused + ' refused, ' + left + told + 'status ' + end.status;
  return run.trouble.length === 0 ? figures + ': no trouble' : figures;
}

function fillHeader() {
  const end = run.end, verdict = byId('verdict');
  const file = run.told && run.told.file ? ' of ' + run.told.file : '';
  document.title = document.querySelector('h1').textContent = 'Kazdrin: a ' + (isTrial() ? 'trial' : 'run') + file;
  byId('trouble').disabled = run.trouble.length === 0;
  if (!end) { verdict.textContent = 'cut off'; verdict.className = 'bad'; return; }
  verdict.textContent = verdictOf(end);
  verdict.className = end.status === 0 ? '' : 'bad';
  byId('figures').textContent = figuresOf(end);
}

function isTrial() {
  return run.told !== undefined && run.told.origin === 'trial';
}

// On paper the chart stands in bands, one below the other.
function fillPaper() {
  const paper = byId('paper'), bands = Math.ceil(run.columns.length / 66), columns = Math.ceil(run.columns.length / bands), names = 210, width = names + columns * STEP + 90;
  paper.replaceChildren();
  for (let from = 0; from < run.columns.length; from += columns) {
    const svg = document.createElementNS(SVG, 'svg');
    svg.setAttribute('viewBox', '0 0 ' + width + ' ' + (run.height + 22));
    svg.setAttribute('width', width);
    for (const lane of run.lanes) add(svg, 'text', { x: 2, y: lane.y + 26, 'font-size': 11 }, (lane.text + ' ' + (lane.altitude || '')).slice(0, 40));
    const clip = add(add(svg, 'clipPath', { id: 'band' + from }), 'rect', { x: from * STEP, y: -30, width: columns * STEP + (from + columns >= run.columns.length ? 90 : 0), height: run.height + 60 });
    const shift = add(svg, 'g', { transform: 'translate(' + (names - from * STEP) + ' 22)', 'clip-path': 'url(#band' + from + ')' });
    drawWindow(shift, run, from, from + columns, null);
    const axis = add(svg, 'g', { transform: 'translate(' + (names - from * STEP) + ' 0)' });
    drawAxis(axis, run, from, from + columns);
    paper.appendChild(svg);
  }
}

function start() {
  byId('names').style.height = byId('plot').style.height = run.height + 'px';
  byId('axis').style.width = byId('plot').style.width = (run.columns.length * STEP + 110) + 'px';
  byId('chart').style.maxHeight = (run.height + 40) + 'px';
  fillNames(byId('names'));
  fillList();
  fillLegend();
  fillHeader();
  drawView(true);
  byId('chart').addEventListener('scroll', () => requestAnimationFrame(() => drawView(false)));
  byId('chart').addEventListener('click', clickChart);
  byId('chart').addEventListener('mousemove', showTip);
  byId('chart').addEventListener('mouseleave', () => { byId('tip').style.display = 'none'; });
  byId('told').addEventListener('click', clickList);
  byId('on').addEventListener('click', () => step(1, false));
  byId('back').addEventListener('click', () => step(-1, false));
  byId('trouble').addEventListener('click', () => stepTrouble(1));
  byId('explain').addEventListener('click', () => byId('legend').classList.toggle('shown'));
  addEventListener('keydown', pressKey);
  addEventListener('resize', () => drawView(true));
  addEventListener('beforeprint', () => { run.chunks.forEach(fillChunk); fillPaper(); });
  addEventListener('afterprint', () => run.chunks.filter((chunk) => !chunk.isNear).forEach(emptyChunk));
  const line = /^#L(\d+)$/.exec(location.hash);
  const told = line && run.columns.find((told) => told.line === Number(line[1]));
  if (told) choose(told, false);
}

start();
</script>
</body>
</html>
"##;
