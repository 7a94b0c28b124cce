// A part of the page's frame, written by page/write_frame.py.

pub(crate) fn text() -> &'static str {
    r##"<!DOCTYPE html>
<html lang="en">
<head>
<meta charset="utf-8">
<meta http-equiv="Content-Security-Policy" content="default-src 'none'; base-uri 'none'; form-action 'none';
 style-src 'sha256-qMZUvfT4WF62yEFynX2Er1QkQNlzczQsp8Ww+McMFIk='; script-src 'sha256-ZRRpIt9xHgl2C95fpalIartxZlgfIsjYIKpHzJ2fmd8='">
<meta name="viewport" content="width=device-width, initial-scale=1">
<title>Audit of a room</title>
<style>
:root {
  color-scheme: light dark;
  --ground: #f6f7f9; --sheet: #ffffff; --ink: #1c2430; --soft: #5a6575; --line: #dde2e9; --hover: #eef3fb; --chosen: #dbe8fd;
  --link: #1f5fbf; --good: #23884e; --warn: #a86c00; --bad: #c93232; --good-ground: #e7f5ec; --warn-ground: #fdf3dc;
  --bad-ground: #fdeaea; --differs: #fff6d6;
  --lane0: #5b82b8; --lane1: #9069c4; --lane2: #3b9a9a; --lane3: #a8744c; --lane4: #bf5f98; --lane5: #6c7a8f;
}
@media (prefers-color-scheme: dark) {
  :root {
    --ground: #12161c; --sheet: #1a2028; --ink: #e4e9f0; --soft: #98a4b5; --line: #303946; --hover: #232c38; --chosen: #27405f;
    --link: #83b4ff; --good: #4cc27f; --warn: #e8b33c; --bad: #ff7b78; --good-ground: #173426; --warn-ground: #3a2e12;
    --bad-ground: #411f22; --differs: #3b3413;
    --lane0: #6f9bd8; --lane1: #a98ae0; --lane2: #52b8b8; --lane3: #c8946a; --lane4: #da83b6; --lane5: #8c9bb2;
  }
}
* { box-sizing: border-box; } html, body { height: 100%; margin: 0; }
body { display: flex; flex-direction: column; background: var(--ground); color: var(--ink); overflow: hidden;
  font: 14px/1.45 system-ui, "Segoe UI", Roboto, "DejaVu Sans", sans-serif; }
a { color: var(--link); text-decoration: none; } a:hover { text-decoration: underline; }
h1 { font-size: 17px; margin: 0; overflow: hidden; text-overflow: ellipsis; white-space: nowrap; max-width: 100%; }
h2 { font-size: 16px; margin: 0 0 4px; overflow-wrap: anywhere; display: -webkit-box; -webkit-line-clamp: 4;
  -webkit-box-orient: vertical; overflow: hidden; }
h3 { font-size: 13px; margin: 20px 0 6px; } p { margin: 4px 0; overflow-wrap: anywhere; }
button, input, select { font: inherit; font-size: 13px; color: var(--ink); background: var(--sheet); border: 1px solid var(--line);
  border-radius: 6px; padding: 3px 8px; min-width: 0; }
button { cursor: pointer; } button:hover { background: var(--hover); }
:focus-visible { outline: 2px solid var(--link); outline-offset: 1px; } .soft { color: var(--soft); }
.id, pre, .rule { font-family: ui-monospace, "SF Mono", Consolas, "DejaVu Sans Mono", monospace; font-size: 12px;
  overflow-wrap: anywhere; }
header { background: var(--sheet); border-bottom: 1px solid var(--line); padding: 10px 16px 8px; }
.head, .counts, .legend, .filter { display: flex; flex-wrap: wrap; align-items: center; gap: 4px 8px; } .head { column-gap: 14px; }
.counts button { border-radius: 999px; padding-block: 1px; } .counts button[aria-pressed="true"] { background: var(--chosen); }
.legend { gap: 2px 16px; color: var(--soft); font-size: 12px; margin: 6px 0 8px; padding: 0; list-style: none; }
.legend li { display: flex; align-items: center; gap: 5px; flex: none; } .filter label { display: contents; }
.filter input, .filter select { flex: none; width: 11em; } .filter .wide { width: 18em; }
.hidden-label { position: absolute; width: 1px; height: 1px; overflow: hidden; clip-path: inset(50%); white-space: nowrap; }
main { flex: 1; min-height: 0; display: grid; grid-template: minmax(0, 1fr) / minmax(0, 59fr) minmax(0, 41fr); }
.events { display: flex; flex-direction: column; min-height: 0; border-right: 1px solid var(--line); background: var(--sheet); }
#list { flex: 1; overflow: hidden auto; position: relative; outline-offset: -2px; overscroll-behavior: contain; }
#rows { position: relative; overflow: hidden; }
.row { position: absolute; left: 0; right: 0; top: 0; height: 28px; display: flex; align-items: center; gap: 8px; padding-right: 12px;
  cursor: pointer; white-space: nowrap; contain: strict; border-left: 3px solid transparent; }
.row:hover { background: var(--hover); } .row.active { box-shadow: inset 0 0 0 1px var(--line); }
.row.selected { background: var(--chosen); } .row.pinned { border-left-color: var(--lane1); }
.row > * { overflow: hidden; text-overflow: ellipsis; flex: none; }
.row .number { width: 3.2em; text-align: right; color: var(--soft); font-size: 12px; font-variant-numeric: tabular-nums; }
.row .time { color: var(--soft); font-size: 12px; font-variant-numeric: tabular-nums; width: 7.2em; } .row .time.dated { width: 9.4em; }
.row .sender { width: 8.4em; font-weight: 600; } .row .words { flex: 1 1 0; min-width: 4.5em; }
.row .words.struck { text-decoration: line-through; color: var(--soft); } .row .said { flex: 0 1 auto; max-width: 70%; }
.row .type { color: var(--soft); font-size: 11.5px; max-width: 12em; } .row.fold .words { color: var(--soft); }
.accepted { color: var(--good); } .soft-failed { color: var(--warn); } .rejected, .refused { color: var(--bad); }
.dot { display: inline-block; width: 9px; height: 9px; border-radius: 50%; background: currentColor; flex: none; } svg { flex: none; }
svg .fill { fill: currentColor; } svg .ring { fill: none; stroke: currentColor; stroke-width: 1.5; } svg .halo { fill: var(--sheet); }
svg .folded { fill: var(--sheet); stroke: var(--soft); stroke-width: 1.5; stroke-dasharray: 3 2; }
svg path { fill: none; stroke-width: 2; }
.lane0 { stroke: var(--lane0); } .lane1 { stroke: var(--lane1); } .lane2 { stroke: var(--lane2); }
.lane3 { stroke: var(--lane3); } .lane4 { stroke: var(--lane4); } .lane5 { stroke: var(--lane5); }
.refused-list { border-top: 1px solid var(--line); padding: 6px 12px; max-height: 30%; overflow: auto; overflow-wrap: anywhere; }
#panel { overflow-y: auto; min-width: 0; padding: 14px 18px 40px; }
.tabs { display: flex; gap: 4px; margin: 8px 0 12px; border-bottom: 1px solid var(--line); }
.tabs button { border: 0; border-bottom: 2px solid transparent; border-radius: 0; background: none; color: var(--soft);
  padding: 5px 10px; }
.tabs button[aria-selected="true"] { color: var(--ink); border-bottom-color: var(--link); font-weight: 600; }
.verdict { border-left: 4px solid currentColor; border-radius: 6px; padding: 8px 12px; margin: 4px 0 8px; }
.verdict.accepted { background: var(--good-ground); } .verdict.soft-failed { background: var(--warn-ground); }
.verdict.rejected { background: var(--bad-ground); } .verdict > * { color: var(--ink); }
.verdict .sentence { font-size: 15px; font-weight: 600; }
.checks { display: flex; flex-wrap: wrap; gap: 4px 6px; list-style: none; margin: 8px 0 0; padding: 0; font-size: 12px; }
.checks li { border: 1px solid var(--line); background: var(--sheet); border-radius: 999px; padding: 1px 9px; }
.checks .ok { color: var(--good); } .checks .failed { color: var(--bad); font-weight: 600; } .checks .left { color: var(--soft); }
.facts { display: grid; grid-template-columns: max-content minmax(0, 1fr); gap: 2px 12px; margin: 0; overflow-wrap: anywhere; }
.facts dt { color: var(--soft); } .facts dd { margin: 0; }
table { border-collapse: collapse; width: 100%; font-size: 13px; table-layout: fixed; }
th, td { text-align: left; vertical-align: top; padding: 5px 8px 5px 0; border-bottom: 1px solid var(--line); overflow-wrap: anywhere; }
th { color: var(--soft); font-weight: 500; font-size: 12px; }
tr.key th { color: var(--ink); font-size: 13px; padding-top: 9px; border-bottom: 0; } tr.differs td { background: var(--differs); }
tr.differs td:first-child { box-shadow: inset 3px 0 0 var(--warn); padding-left: 8px; }
.judged-by th:first-child, .states th:first-child { width: 36%; } .conflicts th:first-child { width: 6.5em; }
ul.events-list, ol.steps { margin: 0; padding: 0; font-size: 13px; list-style: none; counter-reset: step; }
ul.events-list li { padding: 2px 0; }
ol.steps li { counter-increment: step; padding: 4px 0 4px 26px; position: relative; border-bottom: 1px solid var(--line); }
ol.steps li::before { content: counter(step); position: absolute; left: 2px; top: 6px; color: var(--soft); font-size: 12px; }
.steps .event { max-width: calc(100% - 90px); } .states .event { max-width: 100%; } .states .event .text { -webkit-line-clamp: 3; }
i { color: var(--soft); font-style: normal; } .why { display: block; color: var(--bad); padding-left: 18px; }
.event { display: inline-flex; max-width: calc(100% - 20px); gap: 6px; vertical-align: top; } .event .dot { margin-top: 6px; }
.event .text { min-width: 0; overflow: hidden; display: -webkit-box; -webkit-line-clamp: 2; -webkit-box-orient: vertical;
  overflow-wrap: anywhere; }
pre { background: var(--sheet); border: 1px solid var(--line); border-radius: 6px; padding: 8px 10px; margin: 0; white-space: pre-wrap;
  max-height: 22em; overflow: auto; unicode-bidi: isolate; }
.compare { display: grid; grid-template-columns: max-content max-content 7em; gap: 6px 8px; align-items: center; }
@media (min-width: 1500px) { .row .sender { width: 13em; } } @media (max-width: 1350px) { .row .said ~ .type { display: none; } }
@media (max-width: 1000px) { .row .type { display: none; } }
@media (max-width: 760px) {
  header { padding: 8px 10px 6px; } main { grid-template: minmax(0, 46fr) minmax(0, 54fr) / minmax(0, 1fr); }
  .events { border-right: 0; border-bottom: 2px solid var(--line); } .row { gap: 6px; padding-right: 6px; }
  .row .time.time, .legend .keys { display: none; } .row .number { width: 2.4em; } .row .sender { width: 6.4em; }
  .filter, .legend { flex-wrap: nowrap; overflow-x: auto; padding-bottom: 2px; } .filter > * { flex: none; }
  .filter .wide { width: 11em; } #panel { padding: 10px 12px 30px; }
}
</style>
</head>
<body>
<header>
  <div class="head"><h1 id="title"></h1><span id="about" class="soft"></span><div id="counts" class="counts"></div></div>
  <ul id="legend" class="legend" aria-label="Legend"></ul>
  <form id="filter" class="filter" role="search">
    <label><span class="hidden-label">Text</span><input id="find-text" class="wide" type="search" placeholder="Find text  ( / )"></label>
    <label><span class="hidden-label">Verdict</span><select id="find-verdict"></select></label>
    <label><span class="hidden-label">Type</span><select id="find-type"></select></label>
    <label><span class="hidden-label">Sender</span><input id="find-sender" list="senders" placeholder="Sender"></label>
    <label><span class="hidden-label">State key</span><input id="find-key" list="keys" placeholder="State key"></label>
    <button id="clear" type="button">Clear</button>
    <button id="next" type="button">Next not accepted (n)</button>
    <span id="found" class="soft" role="status"></span>
    <datalist id="senders"></datalist><datalist id="keys"></datalist>
  </form>
</header>
<main>
  <section class="events" aria-label="Events of the room">
    <div id="list" role="listbox" tabindex="0" aria-label="Events in order of arrival"><div id="rows" role="presentation"></div></div>
    <div id="refused"></div>
  </section>
  <section id="panel" aria-label="The selected event" tabindex="-1"></section>
</main>
<script type="application/json" id="room-data">"##
}
