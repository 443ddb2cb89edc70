//! What each page has before and after its data. The page needs nothing beside it and loads nothing. Its script shows what stands in
//! the data: it takes lines from one tree to the next, and computes nothing of labels.

/// What stands before the data.
pub const HEAD: &str = "<!DOCTYPE html>
<html lang='en'>
<head>
<meta charset='utf-8'>
<meta name='viewport' content='width=device-width'>
<meta name='color-scheme' content='light dark'>
<meta http-equiv='Content-Security-Policy' content=\"default-src 'none'; script-src 'unsafe-inline'; style-src 'unsafe-inline'\">
<title>What a dump leads to</title>
<style>
:root { --page: #fff; --ink: #222; --dim: #6a6a6a; --rule: #ccc; --new: #fff3c4; --reached: #fde0e0; --both: #fbd0a8; --refused: #b00020;
  --s0: #b00020; --s1: #1b6e20; --s2: #8a5a00; --s3: #1040c0; --s4: #8a1a9a; --s5: #00707a; }
@media (prefers-color-scheme: dark) { :root { --page: #16181c; --ink: #e4e4e4; --dim: #9a9a9a; --rule: #444; --new: #4a4210; --reached: #5a2226; --both: #6a3c14; --refused: #ff8a96;
  --s0: #ff8a96; --s1: #7fd586; --s2: #e0b060; --s3: #8fb0ff; --s4: #e29af0; --s5: #66d0da; } }
* { box-sizing: border-box; }
body { margin: 0; padding: 1em; background: var(--page); color: var(--ink); font: 14px/1.4 sans-serif; }
h1 { margin: 0; font-size: 1.1em; }
pre { margin: 0; font: 13px/1.5 monospace; white-space: pre-wrap; overflow-wrap: anywhere; }
header { display: flex; flex-wrap: wrap; gap: .3em 1em; align-items: center; padding-bottom: .5em; border-bottom: 1px solid var(--rule); }
#count { min-width: 15em; }
#at { flex: 1; min-width: 10em; }
main { display: flex; gap: 1em; padding-top: .5em; }
#events { flex: 0 0 24em; max-height: calc(100vh - 8em); margin: 0; padding: 0 .5em 0 0; overflow-y: auto; list-style: none; border-right: 1px solid var(--rule); }
#events a { display: block; padding: 0 .3em; color: inherit; font: 12px/1.6 monospace; text-decoration: none; white-space: nowrap; overflow: hidden; text-overflow: ellipsis; }
#events a.read { padding-left: 2em; color: var(--dim); font-style: italic; }
#events a.refused::before { content: '\\d7  '; }
#events a.refused { color: var(--refused); }
#events a[aria-current] { background: var(--new); font-weight: bold; }
section { flex: 1; min-width: 0; }
#told, #gone, #flow { margin: .5em 0; }
#told pre { font-weight: bold; }
#told pre.why { margin: .2em 0 .6em 2em; font-weight: normal; }
#tree span { display: block; border-left: 4px solid transparent; padding-left: 4px; }
#tree span.new { border-left-color: var(--ink); background: var(--new); }
#tree span.reached { background: var(--reached); }
#tree span.new.reached { background: var(--both); }
#gone { color: var(--dim); text-decoration: line-through; }
footer { margin-top: 1em; padding-top: .5em; border-top: 1px solid var(--rule); color: var(--dim); font-size: .9em; }
footer span { padding: 0 .3em; color: var(--ink); }
b { font-weight: normal; }
.s0 { color: var(--s0); } .s1 { color: var(--s1); } .s2 { color: var(--s2); } .s3 { color: var(--s3); } .s4 { color: var(--s4); } .s5 { color: var(--s5); }
.s6 { font-weight: bold; }
@media (max-width: 700px) { main { flex-direction: column; } #events { flex: none; max-height: 9em; border-right: 0; border-bottom: 1px solid var(--rule); } }
</style>
</head>
<body>
<header><h1 id='title'></h1><label for='at' id='count'></label><input id='at' type='range' min='0' value='0'></header>
<div id='flow'></div>
<main><ol id='events'></ol><section><div id='told'></div><pre id='tree'></pre><pre id='gone'></pre></section></main>
<footer>&larr; &rarr; one event or read back or on; n, p the next or previous refused one; g, e the beginning or the end. 7.1 is the first read after event 7. <span style='border-left: 4px solid; background: var(--new)'>new</span>
<span style='text-decoration: line-through'>gone</span> <span style='background: var(--reached)'>reached by the flows that were asked for</span> Each category has one colour; <span class='s6'>owners and flags</span> are bold.</footer>
<script type='application/json' id='data'>";

/// What stands after the data.
pub const TAIL: &str = "</script>
<script>
'use strict';
const byId = (id) => document.getElementById(id);
const page = JSON.parse(byId('data').textContent);
const last = page.steps.length - 1;
const name = decodeURIComponent(location.pathname.split('/').pop() || '').replace(/\\.html?$/, '') || 'dump';
const refused = page.steps.map((step) => step.told.some((told) => told.why));

// How many events have come at each step, and which of the reads after them it is: of an event none.
const places = [];
for (const step of page.steps) {
  const before = places.at(-1) || { events: -1, reads: 0 };
  places.push(step.read ? { events: before.events, reads: before.reads + 1 } : { events: before.events + 1, reads: 0 });
}
const numbers = places.map(({ events, reads }) => reads ? `${events}.${reads}` : `${events}`);
const placed = ({ events, reads }) => `after ${events} of ${places[last].events} events${reads ? `, read ${reads}` : ''}`;

// An edit keeps lines, lets lines go, and may put one. What is left goes.
function patched(old, edits) {
  const lines = [], gone = [];
  let from = 0;
  for (const [keep, leave, line] of edits) {
    for (const kept of old.slice(from, from + keep)) lines.push(kept);
    for (const left of old.slice(from + keep, from + keep + leave)) gone.push(left);
    from += keep + leave;
    if (line) lines.push(line);
  }
  return { lines, gone: gone.concat(old.slice(from)) };
}

function treeAfter(at) {
  let tree = { lines: [], gone: [] };
  for (const step of page.steps.slice(0, at + 1)) tree = patched(tree.lines, step.edits);
  return tree;
}

function element(name, kind, text) {
  const made = document.createElement(name);
  made.className = kind;
  made.textContent = text;
  return made;
}

// A line, with each marked word in its style.
function shown(line, isNew) {
  const row = element('span', (isNew ? 'new ' : '') + (line.reached ? 'reached' : ''), '');
  let from = 0;
  for (const [plain, length, style] of line.marks) {
    row.append(line.text.slice(from, from + plain));
    from += plain;
    row.append(element('b', 's' + style, line.text.slice(from, from + length)));
    from += length;
  }
  row.append(line.text.slice(from) + '\\n');
  return row;
}

function showFlow() {
  if (!page.flow) return;
  const reached = page.flow.reached.join(' ') || 'nothing';
  byId('flow').textContent = `Flows from ${page.flow.from} outside category ${page.flow.category} reach ${reached}.`;
}

function listEvents() {
  byId('events').append(...page.steps.map((step, at) => {
    const kind = (step.read ? 'read ' : '') + (refused[at] ? 'refused' : '');
    const link = element('a', kind, at ? `${numbers[at]}  ${step.told[0].line}` : 'the beginning');
    link.href = '#' + numbers[at];
    link.title = step.told.map((told) => told.line).join('\\n');
    const item = element('li', '', '');
    item.append(link);
    return item;
  }));
}

function markStep(at) {
  for (const link of document.querySelectorAll('#events a[aria-current]')) link.removeAttribute('aria-current');
  const link = byId('events').children[at].firstChild, list = byId('events');
  link.setAttribute('aria-current', 'true');
  const above = link.offsetTop - list.offsetTop;
  if (above < list.scrollTop || above + link.offsetHeight > list.scrollTop + list.clientHeight) list.scrollTop = above - list.clientHeight / 2;
}

function show(at) {
  const step = page.steps[at], tree = treeAfter(at);
  const put = new Set(step.edits.map((edit) => edit[2]));
  byId('at').value = at;
  byId('count').textContent = placed(places[at]);
  byId('title').textContent = name;
  document.title = `${name}, ${placed(places[at])}`;
  byId('told').replaceChildren(...step.told.flatMap((told) =>
    [element('pre', 'line', told.line), ...(told.why ? [element('pre', 'why', told.why)] : [])]));
  byId('tree').replaceChildren(...tree.lines.map((line) => shown(line, at > 0 && put.has(line) && line.new)));
  byId('gone').textContent = tree.gone.map((line) => line.text + '\\n').join('');
  markStep(at);
  history.replaceState(null, '', '#' + numbers[at]);
}

// The step that the address names, or else the first refused one, or else the last.
function asked() {
  const number = location.hash.slice(1), named = numbers.indexOf(number), first = refused.indexOf(true);
  if (named >= 0) return named;
  return first < 0 || number > 0 ? last : first;
}

const within = (at) => Math.max(0, Math.min(last, at));
const nextRefused = (at) => { const found = refused.indexOf(true, at + 1); return found < 0 ? at : found; };
const previousRefused = (at) => { const found = at ? refused.lastIndexOf(true, at - 1) : -1; return found < 0 ? at : found; };
const keys = { ArrowLeft: (at) => at - 1, ArrowRight: (at) => at + 1, n: nextRefused, p: previousRefused, g: () => 0, e: () => last };
document.addEventListener('keydown', (event) => {
  if (!Object.hasOwn(keys, event.key) || event.ctrlKey || event.altKey || event.metaKey || event.shiftKey) return;
  event.preventDefault();
  show(within(keys[event.key](Number(byId('at').value))));
});
byId('at').max = last;
byId('at').addEventListener('input', () => show(within(Number(byId('at').value))));
addEventListener('hashchange', () => show(asked()));
listEvents();
showFlow();
show(asked());
</script>
</body>
</html>
";
