//! The page without its data, made by `page/make` from the files of `page`.

/// What stands before the list.
pub(crate) const HEAD: &str = r##"<!doctype html>
<html lang="en">
<head>
<meta charset="utf-8">
<meta name="viewport" content="width=device-width">
<meta http-equiv="Content-Security-Policy" content="default-src 'none'; style-src 'unsafe-inline'; script-src 'sha256-I4N+ubMFmnT1S2cqq6wXTmZZB+Pi8PXkoGs0rjorh+w='">
<title>breezesim</title>
<style>
/* Colours: light, and dark where the reader's system or the reader says so. Phases are told by dashes and marks too. */
:root {
  color-scheme: light;
  --ground: #fbfaf7; --panel: #ffffff; --body: #ffffff; --ink: #1d2126; --dim: #6a7078; --rule: #d9d7d0;
  --idle: #b3b1aa; --asked: #c25e00; --taken: #0062a8; --replied: #00795a; --busy: #dcebf7;
  --moved: #f5c400; --on-moved: #15181c; --clash: #c8102e; --selected: #8a3ffc; --selection: #d9c2fb; --found: #b8860b;
  --rest: #c9c9c9; --resting: #f0efec; --frame: #f3f2ee; --push: #1a56a0; --pull: #b04a00;
}
:root[data-theme=dark] {
  color-scheme: dark;
  --ground: #15181c; --panel: #1d2126; --body: #20252b; --ink: #e8e6e1; --dim: #9aa1a9; --rule: #353b43;
  --idle: #5d646d; --asked: #ffa347; --taken: #62b5f6; --replied: #3fd0a0; --busy: #1e3a52;
  --moved: #f5c400; --on-moved: #15181c; --clash: #ff5c70; --selected: #be95ff; --selection: #4a3b68; --found: #e0b000;
  --rest: #5a5f66; --resting: #23272c; --frame: #1b1e23; --push: #7db4ff; --pull: #ffab6b;
}
@media (prefers-color-scheme: dark) {
  :root:not([data-theme=light]) {
    color-scheme: dark;
    --ground: #15181c; --panel: #1d2126; --body: #20252b; --ink: #e8e6e1; --dim: #9aa1a9; --rule: #353b43;
    --idle: #5d646d; --asked: #ffa347; --taken: #62b5f6; --replied: #3fd0a0; --busy: #1e3a52;
    --moved: #f5c400; --on-moved: #15181c; --clash: #ff5c70; --selected: #be95ff; --selection: #4a3b68; --found: #e0b000;
    --rest: #5a5f66; --resting: #23272c; --frame: #1b1e23; --push: #7db4ff; --pull: #ffab6b;
  }
}

/* The panels */
* { box-sizing: border-box; }
html, body { height: 100%; margin: 0; }
body {
  background: var(--ground); color: var(--ink); font: 13px/1.35 system-ui, "DejaVu Sans", sans-serif; display: grid;
  scrollbar-color: var(--idle) var(--panel);
  grid-template: auto minmax(0, 1fr) auto auto / minmax(0, 1fr) 372px;
  grid-template-areas: "top top" "net side" "chart side" "bar bar";
}
body.charted { grid-template-rows: auto minmax(0, 1fr) minmax(0, 46vh) auto; }
body.charted.low { grid-template-rows: auto minmax(0, 1fr) minmax(0, 34vh) auto; }
header, aside, footer, #chart { background: var(--panel); }
header { grid-area: top; display: flex; gap: 10px; align-items: center; padding: 6px 12px; border-bottom: 1px solid var(--rule); }
#part { font-size: 15px; }
#says { flex: 1; font-size: 15px; overflow: hidden; text-overflow: ellipsis; white-space: nowrap; }
noscript { position: fixed; inset: 0; background: var(--panel); padding: 20px; z-index: 20; }
button, input {
  font: inherit; color: inherit; background: var(--panel); border: 1px solid var(--rule); border-radius: 5px; padding: 3px 8px;
}
button:not(:disabled) { cursor: pointer; }
button:hover:not(:disabled) { border-color: var(--dim); }
button:disabled { opacity: .4; }
button.on { border-color: var(--selected); color: var(--selected); }
.zoom { display: flex; }
.zoom button { padding: 3px 6px; border-radius: 0; margin-left: -1px; }
:focus-visible { outline: 2px solid var(--selected); outline-offset: 1px; }

/* Search */
.find { position: relative; }
#search { width: clamp(130px, 12vw, 190px); }
#count { position: absolute; right: 8px; top: 5px; color: var(--dim); font-size: 11px; }
#found {
  position: absolute; right: 0; top: 100%; z-index: 5; background: var(--panel); border: 1px solid var(--rule);
  border-radius: 5px; min-width: 260px; display: none; max-height: 60vh; overflow: auto;
}
.find:focus-within #found:not(:empty) { display: block; }
#found .name { padding: 3px 8px; cursor: pointer; }
#found .name:hover, #found .chosen { background: var(--busy); }
#found .chosen { outline: 2px solid var(--selected); outline-offset: -2px; }

/* The journal and the details */
#svg {
  grid-area: net; width: 100%; height: 100%; min-height: 0; touch-action: none; user-select: none; -webkit-user-select: none;
}
aside {
  grid-area: side; border-left: 1px solid var(--rule); min-height: 0;
  display: grid; grid-template-rows: auto minmax(0, 1fr) minmax(0, 1.1fr);
}
aside h2 {
  font-size: 11px; font-weight: 600; text-transform: uppercase; color: var(--dim); margin: 0; padding: 6px 10px 2px;
  display: flex; gap: 6px; align-items: center;
}
aside h2 span { margin-right: auto; }
aside h2 button { font-size: 11px; font-weight: 400; padding: 0 6px; }
#journal, .history, #chart text { font-family: ui-monospace, "DejaVu Sans Mono", monospace; font-size: 12px; }
#journal { overflow: hidden; border-bottom: 1px solid var(--rule); touch-action: none; }
#journal.words { font-family: inherit; }
div.row { height: 18px; display: flex; gap: 8px; padding: 0 10px; white-space: pre; cursor: pointer; overflow: hidden; }
div.row .line { color: var(--dim); min-width: 52px; text-align: right; flex: none; }
#journal .row span { overflow: hidden; text-overflow: ellipsis; }
div.row.host { font-weight: 700; }
div.row.rest { background: var(--resting); }
div.row.bad { color: var(--clash); }
div.row.later { opacity: .55; }
div.row.mine .line { color: var(--selected); font-weight: 700; }
div.row.now, div.row.now .line { background: var(--moved); color: var(--on-moved); }
#details { padding: 8px 0; overflow: auto; }
.title, .under, .hint, .ports { margin: 0 10px; }
.title { font-weight: 700; font-size: 14px; overflow-wrap: anywhere; }
.title.end, .title.stuck { margin-top: 8px; }
.title.stuck { color: var(--clash); cursor: pointer; }
.under.stuck { color: var(--clash); font-weight: 700; }
.under, .hint { color: var(--dim); font-size: 12px; overflow-wrap: anywhere; }
.ports { margin-top: 6px; border-top: 1px solid var(--rule); }
div.port {
  display: grid; grid-template-columns: 14px minmax(54px, 1fr) minmax(84px, auto) minmax(96px, auto); column-gap: 5px;
  align-items: center;
  border-bottom: 1px solid var(--rule); padding: 1px 0; cursor: pointer;
}
div.port > span { overflow: hidden; text-overflow: ellipsis; white-space: nowrap; }
div.port > .phase:first-child { grid-column: 1 / 5; }
.end.active, .end.passive { width: 8px; height: 8px; border-radius: 50%; border: 1.5px solid var(--ink); }
.end.active { background: var(--ink); }
span.channel { color: var(--dim); }
.phase::before {
  content: ""; display: inline-block; width: 9px; height: 9px; margin-right: 5px; background: var(--idle); border-radius: 2px;
}
.asked .phase { color: var(--asked); }
.taken .phase { color: var(--taken); }
.replied .phase { color: var(--replied); }
.asked .phase::before { background: var(--asked); clip-path: polygon(0 0, 100% 50%, 0 100%); }
.taken .phase::before { background: var(--taken); }
.replied .phase::before { background: var(--replied); clip-path: polygon(100% 0, 0 50%, 100% 100%); }
.callers[data-select] { cursor: pointer; }
.events { margin: 8px 10px; display: flex; gap: 6px; align-items: center; }
.leave { margin-left: auto; }
.history .row { font-family: inherit; height: auto; white-space: normal; }
.wait { margin: 1px 10px; padding-left: 14px; text-indent: -14px; font-size: 12px; }
.wait[data-select] { cursor: pointer; }
.wait.cycle { color: var(--clash); font-weight: 700; }

/* The foot */
footer {
  grid-area: bar; border-top: 1px solid var(--rule); padding: 4px 12px 6px;
  display: grid; grid-template-columns: auto 1fr auto; gap: 2px 12px; align-items: center;
}
.buttons { display: flex; gap: 4px; align-items: center; }
.buttons button { min-width: 32px; }
#speed { min-width: 48px; text-align: center; color: var(--dim); }
.track { min-width: 0; }
#scrubber { width: 100%; margin: 0; accent-color: var(--selected); padding: 0; }
#strip { width: 100%; height: 22px; display: block; }
#line { width: 82px; }
#foot { grid-column: 1 / 4; color: var(--dim); font-size: 11px; }
#foot.bad { color: #ffffff; background: #c8102e; font-size: 14px; padding: 4px; }

/* Help */
#help { display: none; position: fixed; inset: 0; background: rgba(0, 0, 0, .5); z-index: 9; place-items: center; }
#help.on { display: grid; }
#help > div {
  background: var(--panel); padding: 18px 22px; border-radius: 8px; max-width: 760px; max-height: 90vh; overflow: auto;
}
#help table { border-collapse: collapse; }
#help td { padding: 2px 14px 2px 0; vertical-align: top; }
kbd {
  font: 12px ui-monospace, "DejaVu Sans Mono", monospace; border: 1px solid var(--rule); border-radius: 3px; padding: 0 4px;
}

/* The picture */
svg text { fill: var(--ink); font-family: system-ui, "DejaVu Sans", sans-serif; text-anchor: middle; font-size: 11px; }
svg .starts { text-anchor: start; }
svg .ends { text-anchor: end; }
svg .stub, svg .number, svg .caption, svg .names text {
  paint-order: stroke; stroke: var(--ground); stroke-width: 3px; fill: var(--dim);
}
.frame rect { fill: var(--frame); stroke: var(--idle); stroke-dasharray: 4 3; }
.frame text { text-anchor: start; fill: var(--dim); cursor: pointer; }
.folded { cursor: pointer; }
.folded rect { fill: var(--body); stroke: var(--dim); stroke-width: 1.4; }
.folded.moved rect { stroke: var(--moved); stroke-width: 4; }
.channel .line { fill: none; stroke: var(--idle); stroke-width: 1.4; }
.channel.push .line, .channel.pull .line { stroke-width: 2.2; }
.channel .hit { fill: none; stroke: transparent; stroke-width: 13; cursor: pointer; }
.channel.asked .line { stroke: var(--asked); stroke-width: 3.2; stroke-dasharray: 7 4; }
.channel.taken .line { stroke: var(--taken); stroke-width: 3.6; }
.channel.replied .line { stroke: var(--replied); stroke-width: 3.2; stroke-dasharray: 2 3.5; }
.channel.here .line { stroke-width: 5.5; }
.channel.selected .hit { stroke: var(--selection); }
circle.active { fill: var(--ink); stroke: var(--ink); stroke-width: 1.2; }
circle.passive { fill: var(--ground); stroke: var(--ink); stroke-width: 1.4; }
.arrow { fill: var(--dim); }
.push .arrow { fill: var(--push); }
.pull .arrow { fill: var(--pull); }
.token { stroke: var(--ground); stroke-width: 1.2; }
.asked .token { fill: var(--asked); }
.taken .token { fill: var(--taken); }
.replied .token { fill: var(--replied); }
svg .stub { font-size: 8.5px; stroke-width: 2px; }
svg .set { font-size: 8px; fill: var(--dim); }
svg .number { font-size: 9px; pointer-events: none; }
.value { display: none; pointer-events: none; }
.value.on { display: block; }
.value rect { fill: var(--body); stroke: var(--ink); stroke-width: 1.2; }
.value text { font-weight: 700; font-size: 11px; }
.component { cursor: pointer; }
.component .body { fill: var(--body); stroke: var(--ink); stroke-width: 1.5; }
.component .ring { fill: none; stroke: none; }
.component.stuck .body { stroke: var(--clash); stroke-width: 2.5; stroke-dasharray: 4 3; }
.component.in-ring .body { stroke-width: 4; stroke-dasharray: none; }
.component.in-ring .ring, .folded.in-ring .front { stroke: var(--clash); stroke-width: 5; }
.component.busy .body { fill: var(--busy); }
.component.moved .ring { stroke: var(--moved); stroke-width: 5; }
.component.selected .body { stroke: var(--selected); stroke-width: 3; }
.component.clash .body { stroke: var(--clash); stroke-width: 4; }
.component.clash .ring { stroke: var(--clash); stroke-width: 2; stroke-dasharray: 3 3; }
svg .sign { font-size: 17px; font-weight: 600; }
svg .sign.small { font-size: 11px; }
svg .caption { font-size: 9.5px; }
.folded .caption { stroke: none; }
.names { display: none; }
.near .names { display: block; }
.near .set { display: none; }
svg .names text { font-size: 6.5px; stroke-width: 1px; }
g.port { cursor: pointer; }
g.port rect { fill: var(--body); stroke: var(--ink); stroke-width: 2.4; }
g.port text { font-weight: 700; }
g.port.moved rect { stroke: var(--moved); stroke-width: 5; }
g.port.refused rect { stroke: var(--clash); stroke-width: 5; stroke-dasharray: 6 3; }
g.port.selected rect { stroke: var(--selected); }
.far .number, .far .caption, .far .stub, .far .set, .farthest .sign { display: none; }
.channel.bundle .line { stroke-width: 4; }
.counted .channel .line { stroke-width: var(--wide); stroke-dasharray: none; }
.counted [data-moved="0"] { opacity: .25; }
.resting { box-shadow: inset 0 0 0 4px var(--rest); }

/* The chart */
#chart { grid-area: chart; display: none; overflow: auto; border-top: 1px solid var(--rule); }
body.charted #chart { display: block; }
g.row { cursor: pointer; }
g.row rect { fill: transparent; }
g.row.rest rect { fill: var(--resting); }
g.row.now rect { fill: var(--moved); fill-opacity: .5; }
#chart .row text { text-anchor: start; font-size: 11px; }
#chart .row .line { text-anchor: end; fill: var(--dim); }
#chart .row.host text { font-weight: 700; }
#chart .row.bad text { fill: var(--clash); }
.lifeline { stroke: var(--idle); }
.head { font-weight: 700; cursor: pointer; }
#chart .kind { font-size: 9px; font-weight: 400; fill: var(--dim); }
.bar { fill: var(--busy); stroke: var(--taken); stroke-width: 1; }
.stroke { cursor: pointer; }
.stroke path { fill: none; stroke: var(--ink); stroke-width: 1.3; }
.stroke.push path, .stroke.pull path { stroke-width: 2.6; }
.stroke.push path { stroke: var(--push); }
.stroke.pull path { stroke: var(--pull); }
.stroke.replies path { stroke-dasharray: 4 3; }
.stroke .tip { fill: var(--ink); stroke-width: 0; }
.stroke.replies .tip { fill: var(--panel); stroke: var(--ink); stroke-dasharray: none; stroke-width: 1.2; }
.stroke.selected path { stroke: var(--selected); }
#chart .stroke text { font-size: 9.5px; paint-order: stroke; stroke: var(--panel); stroke-width: 3px; }
#chart .stroke .starts { text-anchor: start; }
#chart .stroke .ends { text-anchor: end; }

/* The streams */
#chart .streams .name { text-anchor: end; cursor: pointer; }
#chart .streams .selected .name { fill: var(--selected); font-weight: 700; }
#chart .streams .tick { fill: var(--dim); font-size: 9.5px; text-anchor: middle; }
#chart .streams .tick.ends { text-anchor: end; }
#chart .streams { cursor: crosshair; display: block; touch-action: none; }
#chart .streams text { font-size: 11px; }
.streams rect.idle { fill: var(--idle); }
.streams rect.asked { fill: var(--asked); }
.streams rect.taken { fill: var(--taken); }
.streams rect.replied { fill: var(--replied); }
.streams rect.held { fill: var(--busy); stroke: var(--taken); stroke-width: .8; }
.streams rect.many { fill: var(--dim); opacity: .55; }
#chart .told { text-anchor: start; fill: var(--panel); pointer-events: none; }
#chart .told.held, #chart .told.beside { fill: var(--ink); }
.streams line.now { stroke: var(--moved); stroke-width: 2; pointer-events: none; }
.streams line.rest { stroke: var(--rest); }

/* The source */
.source { padding: 4px 0; font: 12px ui-monospace, "DejaVu Sans Mono", monospace; tab-size: 4; }
.source .file { padding: 2px 10px; color: var(--dim); }
.source .gap { padding-left: 58px; line-height: 8px; color: var(--dim); }
.source .row.active { background: var(--busy); }
.source .row.stuck { background: var(--clash); }
.source .row.stuck, .source .row.stuck .line { color: var(--panel); }
.source .row.now { outline: 2px solid var(--moved); outline-offset: -2px; background: none; color: inherit; }
.source .row.now .line { background: none; color: var(--dim); }
.source .row.now.active { background: var(--busy); }
.source .row.now.stuck { background: var(--clash); color: var(--panel); }
.source mark { background: var(--moved); color: var(--on-moved); }

/* Printers and narrow screens */
@media print {
  header button, .find, .buttons, #scrubber, #line, .events { display: none; }
  body { grid-template-columns: minmax(0, 1fr) 250px; }
}
@media (max-width: 1200px) {
  header { flex-wrap: wrap; }
  #says { order: 9; flex-basis: 100%; }
}
@media (max-width: 900px) {
  body {
    grid-template: auto minmax(0, 1.3fr) minmax(0, 1fr) auto / minmax(0, 1fr);
    grid-template-areas: "top" "net" "side" "bar";
  }
  body.charted, body.charted.low {
    grid-template: auto minmax(0, 1fr) minmax(0, 1fr) auto / minmax(0, 1fr);
    grid-template-areas: "top" "net" "chart" "bar";
  }
  header { gap: 6px; }
  body.charted aside { display: none; }
  aside { border-left: 0; border-top: 1px solid var(--rule); grid-template-rows: auto minmax(0, 1fr); }
  #details, .chosen #journal, .chosen h2 { display: none; }
  .chosen #details { display: block; }
  .chosen aside { grid-template-rows: minmax(0, 1fr); }
  .told #details { display: block; }
  .told aside { grid-template-rows: auto minmax(0, 1fr) minmax(0, 1fr); }
  #says { white-space: normal; }
  footer { grid-template-columns: 1fr; }
  #foot { grid-column: 1; }
  .track { grid-row: 1; }
}
</style>
</head>
<body>
<noscript>This page plays a trace, and needs JavaScript. The trace stands in its source.</noscript>
<header>
<b id="part"></b>
<span id="says" role="status" aria-live="polite"></span>
<span class="find">
<input id="search" placeholder="search (/)" aria-label="search lines, components, channels, ports"
autocomplete="off" spellcheck="false">
<span id="count"></span>
<div id="found"></div>
</span>
<button id="streaming" title="what passed at ports and what variables held, from left to right (t)">streams</button>
<button id="charting" title="chart of the lines around (c)">chart</button>
<button id="sourcing" title="the source, where control is (y)">source</button>
<button id="counting" title="how many handshakes there were (k)">counts</button>
<button id="focus" title="only what moves around this line (o)">focus</button>
<span class="zoom"><button id="farther" title="farther (-)" aria-label="farther">−</button><button id="fit"
title="whole net (f)">fit</button><button id="nearer" title="nearer (+)" aria-label="nearer">+</button></span>
<button id="follow" title="keep what moves in sight (w)">follow</button>
<button id="picture" title="save the picture (S)" aria-label="save the picture">⤓</button>
<button id="theme" title="light or dark (d)">◐</button>
<button id="ask" title="keys (?)">?</button>
</header>
<svg id="svg" role="img" aria-label="the net"><g id="root"></g></svg>
<div id="chart"></div>
<aside>
<h2><span>Trace</span>
<button id="only" title="all lines, those of the host, of what is selected, found (e)">all lines</button>
<button id="words" title="in words (v)">words</button></h2>
<div id="journal"></div>
<div id="details"></div>
</aside>
<footer>
<span class="buttons">
<button id="first" title="opening (Home)">|◂◂</button>
<button id="back" title="back (left)">◂</button>
<button id="play" title="play (space)">play</button>
<button id="forward" title="forward (right)">▸</button>
<button id="last" title="end (End)">▸▸|</button>
<button id="slower" title="slower (&lt;)">−</button>
<span id="speed"></span>
<button id="faster" title="faster (&gt;)">+</button>
</span>
<span class="track">
<canvas id="strip"></canvas>
<input id="scrubber" type="range" min="1" step="1" aria-label="line of the trace">
</span>
<span><input id="line" inputmode="numeric" placeholder="line (g)" aria-label="go to line"> <span id="position"></span></span>
<span id="foot"></span>
</footer>
<div id="help" role="dialog" aria-label="keys">
<div>
<b>Keys</b>
<table>
<tr><td><kbd>→</kbd> <kbd>←</kbd></td>
<td>a line on, a line back (with Shift 10; <kbd>PgDn</kbd> <kbd>PgUp</kbd> 100; <kbd>Home</kbd> <kbd>End</kbd>)</td></tr>
<tr><td><kbd>space</kbd> <kbd>&lt;</kbd> <kbd>&gt;</kbd></td><td>play or pause, slower, faster</td></tr>
<tr><td><kbd>]</kbd> <kbd>[</kbd></td><td>next, previous event of what is selected; with nothing selected of the host</td></tr>
<tr><td><kbd>r</kbd> <kbd>R</kbd> <kbd>x</kbd></td><td>next rest, previous rest, next clash</td></tr>
<tr><td><kbd>/</kbd> <kbd>Enter</kbd> <kbd>n</kbd> <kbd>N</kbd> <kbd>↓</kbd> <kbd>↑</kbd></td>
<td>search, next, next, previous line found; choose a name found</td></tr>
<tr><td><kbd>g</kbd> <kbd>u</kbd></td><td>go to a line by its number; back to the last place</td></tr>
<tr><td><kbd>e</kbd> <kbd>v</kbd></td>
<td>which lines the list shows: all, those of the host, of what is selected, found; in words</td></tr>
<tr><td><kbd>+</kbd> <kbd>-</kbd> <kbd>f</kbd> <kbd>w</kbd></td><td>nearer, farther, whole net, follow what moves</td></tr>
<tr><td><kbd>o</kbd> <kbd>s</kbd></td><td>only what moves around this line; channels to hubs as stubs</td></tr>
<tr><td><kbd>t</kbd> <kbd>p</kbd></td><td>streams; a row of its own for what is selected, or none again</td></tr>
<tr><td><kbd>c</kbd> <kbd>y</kbd> <kbd>k</kbd></td><td>chart, source, counts of handshakes</td></tr>
<tr><td><kbd>d</kbd> <kbd>S</kbd> <kbd>Esc</kbd></td><td>light or dark, save the picture, nothing selected</td></tr>
</table>
<p><b>Signs.</b> A circle is a component. A channel goes from a filled dot (the end that asks) to an open one (the end that
answers). Its arrow says where a value goes.<br>
Grey: idle. Orange, dashes, ▶: asked. Blue, ■: taken. Green, dots, ◀: replied. Blue circle: holds a request that it took.
Yellow ring: what moved in this line. Red: requests met here. Red dashes: never moves again; thick red: waits in a ring. A
click on a copy's name folds it, and on a box unfolds it.</p>
<button id="close">close</button>
</div>
</div>
<script type="text/plain" id="net">"##;

/// What stands between the list and the rows of kinds.
pub(crate) const MID1: &str = r##"</script>
<script type="text/plain" id="rows">"##;

/// What stands between the rows of kinds and the trace.
pub(crate) const MID2: &str = r##"</script>
<script type="text/plain" id="trace">"##;

/// What stands after the trace: the script.
pub(crate) const TAIL: &str = r##"</script>
<script>'use strict';
(() => {

const textOf = id => unescaped(document.getElementById(id).textContent);

function unescaped(text) {
  if (!text.includes('%')) return text;
  return text.replace(/%([0-9A-F]{2})/g, (all, digits) => String.fromCharCode(parseInt(digits, 16)));
}

const utf8 = letters => new TextDecoder().decode(Uint8Array.from(letters, letter => letter.charCodeAt(0)));

const IDLE = 0, ASKED = 1, TAKEN = 2, REPLIED = 3;
const PHASES = ['idle', 'asked', 'taken', 'replied'];

const nothingStuck = () => ({line: 0, first: 0, members: new Set(), ring: new Map()});

function readRows(text) {
  const found = {kinds: new Map(), details: new Map(), stuck: nothingStuck(), end: [], sources: new Map()};
  let source = [];
  for (const line of text.split('\n')) {
    if (line.startsWith('text ')) {
      source.push(line.slice(5));
      continue;
    }
    const words = line.split(' ');
    if (words[0] === 'source') found.sources.set(words[1], source = []);
    if (words[0] === 'row') found.kinds.set(words[1], readKind(line));
    if (words[0] === 'detail') found.details.set(Number(words[1]), words.slice(2).join(' '));
    if (words[0] === 'stuck') {
      const [line, first, ...members] = words.slice(1).map(Number);
      Object.assign(found.stuck, {line, first, members: new Set(members)});
    }
    if (words[0] === 'ring') found.stuck.ring.set(Number(words[1]), words.slice(2).filter(word => word).join(' '));
    if (words[0] === 'end') found.end.push(line.slice(4));
  }
  return found;
}

function readKind(line) {
  const [front, sign = ''] = line.split(' s:'), words = front.split(' ').slice(2), isPort = word => word[1] === ':';
  const ports = words.filter(isPort).map(readPort), marks = new Set(words);
  const hasArray = isPassive => ports.some(port => port.isArray && port.isPassive === isPassive);
  return {ports, sign: utf8(sign), isVariable: marks.has('variable'), isOrdered: marks.has('ordered'), isHub: marks.has('hub'),
    isCall: marks.has('meet'), isMeeting: hasArray(true) && !hasArray(false)};
}

function readPort(word) {
  return {isPassive: word[0] === 'p', isArray: word.endsWith('*'), name: word.slice(2).replace('*', '')};
}

const MEMBERS = new Map([['in', 'path'], ['name', 'name'], ['from', 'source']]);

function readPlace(words, at) {
  const place = {part: words[at + 1], position: Number(words[at + 2]), line: Number(words[at + 4])};
  for (const member of MEMBERS.values()) place[member] = '';
  for (let i = at + 5; i + 1 < words.length; i += 2) if (MEMBERS.has(words[i])) place[MEMBERS.get(words[i])] = words[i + 1];
  return place;
}

function readEnd(word) {
  if (word === '-') return null;
  if (word === 'host') return 'host';
  const [component, port] = word.split('.').map(Number);
  return {component, port};
}

function readChannel(words, ports) {
  const number = Number(words[1]), kind = words[2], at = kind === 'sync' ? 3 : 4, port = ports[number];
  return {number, kind, width: kind === 'sync' ? 0 : Number(words[3]), active: readEnd(words[at]),
    passive: readEnd(words[at + 1]), port: port ? port.name : '', isHostCaller: Boolean(port && port.isPassive),
    isShown: true, isStub: false, isBundled: false, bundle: [number], ...readPlace(words, at + 2)};
}

function readComponent(words, rows) {
  const at = words.indexOf('at', 3), number = Number(words[1]), kind = words[2], place = readPlace(words, at);
  const channels = [0, ...words.slice(3, at).map(Number)], told = rows.details.get(number) || '', detail = told || place.name;
  const {ports, ...marks} = rows.kinds.get(kind) || readKind('');
  const component = {number, kind, ...marks, channels, detail, isShown: true, stubs: null, ...place};
  namePorts(component, ports);
  tellSets(component, told.split(';'));
  component.title = `${number} ${kind}` + (component.detail ? ` ${component.detail}` : '');
  return component;
}

function namePorts(component, row) {
  const arrays = row.filter(port => port.isArray).length, channels = component.channels.length - 1;
  const size = arrays ? (channels - row.length + arrays) / arrays : 0;
  component.ports = [null];
  for (const {name, isPassive, isArray} of row)
    for (let i = 1; i <= (isArray ? size : 1); i++) component.ports.push({name: isArray ? name + i : name, isPassive});
  component.passive = [];
  component.active = [];
  component.ports.forEach((port, p) => { if (port) (port.isPassive ? component.passive : component.active).push(p); });
}

function tellSets(component, sets) {
  const array = component.ports.filter(port => port && /\d$/.test(port.name));
  if (sets.length === array.length) array.forEach((port, i) => { port.set = sets[i]; });
}

function readNet(list, rowText) {
  const rows = readRows(rowText);
  const net = {part: '', ports: [], channels: [null], components: [null], instances: new Map(), stuck: rows.stuck,
    end: rows.end, sources: rows.sources, files: null, isGrouped: false};
  for (const line of list.split('\n')) {
    const words = line.split(' '), number = Number(words[1]);
    if (words[0] === 'part') net.part = words[1];
    if (words[0] === 'port') net.ports[number] = {number, name: words[2], isPassive: words[3] === 'passive'};
    if (words[0] === 'channel') net.channels[number] = readChannel(words, net.ports);
    if (words[0] === 'instance') net.instances.set(words[1], {path: words[1], name: words[2]});
    if (words[0] === 'component') net.components[number] = readComponent(words, rows);
  }
  group(net);
  return net;
}

const NONE = 0, ASK = 1, TAKE = 2, REPLY = 3, GOT = 4, REST = 5, CLASH = 6, TOLD = 7;
const MOVES = {ask: ASK, take: TAKE, reply: REPLY, got: GOT};
const HOST_MOVES = {offer: ASK, accept: TAKE, answer: REPLY, collect: GOT};
const isMove = what => what >= ASK && what <= GOT;

function readTrace(text, net) {
  const trace = {text: '', count: 0, start: new Uint32Array(64), what: new Uint8Array(64), channel: new Uint32Array(64),
    component: new Uint32Array(64), hostLines: [], rests: [], clashes: [], audited: null,
    changesOf: [], linesOfChannel: [], linesOfComponent: [],
    portChannels: new Map(net.ports.filter(port => port).map(port => [port.name, port.number]))};
  addLines(trace, text);
  return trace;
}

function addLines(trace, text) {
  const before = trace.count;
  let more = 0, start = trace.text.length;
  for (let at = text.indexOf('\n'); at >= 0; at = text.indexOf('\n', at + 1)) more++;
  trace.text += text;
  makeRoom(trace, before + more + 2);
  const {what, channel, component} = trace;
  for (let line = before + 1; line <= before + more; line++) {
    const end = trace.text.indexOf('\n', start);
    trace.start[line] = start;
    what[line] = channel[line] = component[line] = 0;
    if (line > 1) readLine(trace, line, start, end);
    if (channel[line]) addLine(trace.linesOfChannel, channel[line], line);
    if (isMove(what[line])) {
      addLine(trace.changesOf, channel[line], line);
      if (component[line]) addLine(trace.linesOfComponent, component[line], line);
    }
    start = end + 1;
  }
  trace.count = before + more;
  trace.start[trace.count + 1] = start;
}

function dropClashes(trace) {
  trace.count -= trace.clashes.length;
  trace.clashes.length = 0;
  trace.text = trace.text.slice(0, trace.start[trace.count + 1]);
}

function makeRoom(trace, size) {
  if (size <= trace.start.length) return;
  for (const name of ['start', 'what', 'channel', 'component']) {
    const grown = new trace[name].constructor(Math.max(size, 2 * trace[name].length));
    grown.set(trace[name]);
    trace[name] = grown;
  }
}

function readLine(trace, line, start, end) {
  const {text} = trace, blank = text.indexOf(' ', start);
  if (text.charCodeAt(blank + 1) === 102) {                                           // WHO fire
    const at = text.indexOf(' ', blank + 6), letter = text.charCodeAt(at + 1);        // a, t, r, or g
    trace.component[line] = numberAt(text, blank + 6, end);
    trace.what[line] = letter === 97 ? ASK : letter === 116 ? TAKE : letter === 114 ? REPLY : GOT;
    trace.channel[line] = numberAt(text, text.indexOf(' ', at + 1) + 1, end);
    return;
  }
  const words = text.slice(start, end).split(' ');
  if (words[0] === 'clash') {
    trace.what[line] = CLASH;
    trace.component[line] = Number(words[1]);
    trace.clashes.push(line);
  } else if (words[1] === 'rest') {
    trace.what[line] = REST;
    trace.rests.push(line);
  } else {
    const isDone = words[1] !== 'watch' && (words.includes('done', 3) || words.includes('value', 3));
    trace.channel[line] = trace.portChannels.get(words[2]) || 0;
    trace.what[line] = isDone ? HOST_MOVES[words[1]] || NONE : TOLD;
    trace.hostLines.push(line);
  }
}

function numberAt(text, at, end) {
  let number = 0;
  for (let i = at, digit; i < end && (digit = text.charCodeAt(i)) !== 32; i++) number = number * 10 + digit - 48;
  return number;
}

const lineText = (trace, line) => trace.text.slice(trace.start[line], trace.start[line + 1] - 1);

function countIn(list, from, to, line) {
  let low = from, high = to;
  while (low < high) {
    const middle = (low + high) >> 1;
    if (list[middle] <= line) low = middle + 1; else high = middle;
  }
  return low - from;
}

const NO_LINES = [];
const linesOf = (lines, key) => lines[key] || NO_LINES;
const addLine = (lines, key, line) => { (lines[key] || (lines[key] = [])).push(line); };
const countOf = (lines, key) => linesOf(lines, key).length;
const countTo = (lines, key, line) => countIn(linesOf(lines, key), 0, countOf(lines, key), line);
const nthOf = (lines, key, index) => linesOf(lines, key)[index] || 0;

const lastChange = (trace, channel, line) => nthOf(trace.changesOf, channel, countTo(trace.changesOf, channel, line) - 1);
const phaseAfter = (trace, change) => (change === 0 ? IDLE : trace.what[change] & 3);

function valueAfter(trace, change) {
  if (change === 0 || trace.what[change] !== ASK && trace.what[change] !== REPLY) return '';
  return valueIn(trace, change);
}

function valueIn(trace, line) {
  const words = lineText(trace, line).split(' ');
  if (trace.component[line]) return words[5] || '';
  if (words[1] === 'offer' || words[1] === 'answer') return words[4] ? words[3] : '';
  return words[words.length - 2] === 'value' ? words[words.length - 1] : '';
}

const isStuckBehind = (net, line) => net.stuck.line > 0 && line >= net.stuck.line;
const lastMoveOf = (trace, number) => nthOf(trace.linesOfComponent, number, countOf(trace.linesOfComponent, number) - 1);
const isStill = (net, trace, number, line) => isStuckBehind(net, line) && net.stuck.members.has(number)
  && line >= lastMoveOf(trace, number);

function heldBy(trace, component, line) {
  const write = component.channels[1], seen = countTo(trace.changesOf, write, line);
  for (let i = seen - 1; i >= 0 && i >= seen - 4; i--) {
    const change = nthOf(trace.changesOf, write, i);
    if (trace.what[change] === TAKE) return valueIn(trace, change) || '?';
  }
  return '0';
}

function callersOf(net, trace, component, line) {
  const callers = [], seen = new Set();
  for (let at = component; at && !seen.has(at) && callers.length < 64;) {
    seen.add(at);
    callers.push(at.number);
    const port = at.passive.find(p => phaseAfter(trace, lastChange(trace, at.channels[p], line)) === TAKEN);
    const channel = port && net.channels[at.channels[port]];
    if (channel && channel.active === 'host') return [...callers, channel.port];
    at = channel && channel.active ? net.components[channel.active.component] : null;
  }
  return callers;
}

function audit(trace, net) {
  const seen = trace.audited || (trace.audited = {to: 1, phase: new Uint8Array(net.channels.length), open: new Map(),
    change: new Uint32Array(net.channels.length), found: {moves: 0, told: 0, values: 0, bad: 0, met: new Map()}});
  const {found} = seen, end = trace.count - trace.clashes.length;
  for (let line = seen.to + 1; line <= end && !found.bad; line++) {
    const what = trace.what[line];
    if (what === NONE || isMove(what) && !auditMove(trace, net, line, seen, found)) found.bad = line;
    if (what === TOLD && !auditTold(trace, line, seen, found)) found.bad = line;
  }
  seen.to = end;
  if (!found.bad && trace.clashes[0] <= end) return {...found, bad: trace.clashes[0]};
  const due = [...found.met.keys()].sort((a, b) => a - b).join();
  const written = trace.clashes.map(line => trace.component[line]).join();
  const isAgreed = found.bad > 0 || due === written || lineText(trace, 1) !== 'trace 2';
  return isAgreed ? found : {...found, bad: trace.clashes[0] || trace.count};
}

function auditMove(trace, net, line, seen, found) {
  const what = trace.what[line], number = trace.channel[line], channel = net.channels[number];
  if (!channel || seen.phase[number] !== what - 1) return false;
  if (channel.kind === 'push' && what === TAKE || channel.kind === 'pull' && what === GOT) {
    found.values++;
    if (valueIn(trace, line) !== valueIn(trace, seen.change[number])) return false;
  }
  seen.phase[number] = what & 3;
  seen.change[number] = line;
  found.moves++;
  const callee = channel.passive && channel.passive !== 'host' ? channel.passive.component : 0;
  if (callee && net.components[callee].isCall && (what === ASK || what === GOT)) {
    const open = (seen.open.get(callee) || 0) + (what === ASK ? 1 : -1);
    seen.open.set(callee, open);
    if (open === 2 && !found.met.has(callee)) found.met.set(callee, line);
  }
  return true;
}

function auditTold(trace, line, seen, found) {
  const words = lineText(trace, line).split(' '), at = words.findIndex((word, i) => i > 2 && PHASES.includes(word));
  if (at < 0) return true;
  const number = trace.channel[line];
  found.told++;
  return words[at] === PHASES[seen.phase[number]] && (words[at + 1] || '') === valueAfter(trace, seen.change[number]);
}

const GROUPED_FROM = 60, GROUP_LEAST = 8, MOST_STEPS = 2e7;

function askersOf(net) {
  const graph = net.components.map(() => ({asks: [], askedBy: []}));
  for (const channel of net.channels) {
    if (!channel || !channel.passive || channel.passive === 'host') continue;
    const from = channel.active && channel.active !== 'host' ? channel.active.component : 0, to = channel.passive.component;
    graph[from].asks.push(to);
    graph[to].askedBy.push(from);
  }
  return graph;
}

function postorder(graph) {
  const order = [], seen = new Uint8Array(graph.length), stack = [{number: 0, next: 0}];
  seen[0] = 1;
  while (stack.length) {
    const top = stack[stack.length - 1], next = graph[top.number].asks[top.next++];
    if (next === undefined) order.push(stack.pop().number);
    else if (!seen[next]) {
      seen[next] = 1;
      stack.push({number: next, next: 0});
    }
  }
  return order;
}

function dominators(graph, order) {
  const rank = new Int32Array(graph.length), above = new Int32Array(graph.length).fill(-1);
  let steps = 0;
  order.forEach((number, i) => { rank[number] = i; });
  above[0] = 0;
  const meet = (a, b) => {
    for (; a !== b; steps++) if (rank[a] < rank[b]) a = above[a]; else b = above[b];
    return a;
  };
  for (let isChanged = true; isChanged && steps < MOST_STEPS;) {
    isChanged = false;
    for (let i = order.length - 2; i >= 0 && steps < MOST_STEPS; i--) {
      const number = order[i], found = graph[number].askedBy.filter(it => above[it] >= 0).reduce(meet);
      if (found !== above[number]) isChanged = true;
      above[number] = found;
    }
  }
  return steps < MOST_STEPS ? above : null;
}

function group(net) {
  if (net.instances.size || net.components.length - 1 <= GROUPED_FROM) return;
  const graph = askersOf(net), above = dominators(graph, postorder(graph));
  if (!above) return;
  const below = graph.map(() => []), size = new Int32Array(graph.length), order = [0];
  for (let number = 1; number < graph.length; number++) if (above[number] >= 0) below[above[number]].push(number);
  for (let i = 0; i < order.length; i++) for (const one of below[order[i]]) order.push(one);
  for (const number of order.slice().reverse()) size[number] = 1 + below[number].reduce((sum, one) => sum + size[one], 0);
  for (const number of order) {
    const isAlone = below[number].filter(one => size[one] >= GROUP_LEAST).length < 2;
    const outer = number ? net.components[number].path : '';
    for (const one of below[number]) {
      const isGroup = !isAlone && size[one] >= GROUP_LEAST && isBegun(net, net.components[one]);
      net.components[one].path = isGroup ? `${outer && `${outer}/`}${one}` : outer;
      if (isGroup) putGroup(net, net.components[one]);
    }
  }
}

const isBegun = (net, component) => component.passive.some(p => net.channels[component.channels[p]].kind === 'sync');

function putGroup(net, {path, source, kind}) {
  net.instances.set(path, {path, name: source || kind});
  net.isGrouped = true;
}

const RADIUS = 21, PORT_STEP = 14, CAPTION = 15, STUB_SPACE = 34, LETTER = 5.4;
const COLUMN_GAP = 46, NODE_GAP = 22, THREAD_GAP = 12, BOX_STUBS = 12, BOX_CALLERS = 4;

class Levels {
  constructor(net, folded) {
    Object.assign(this, {net, folded, byPath: new Map(), bundles: new Map(), callers: new Map()});
    this.level('');
    const isShown = component => p => {
      const channel = net.channels[component.channels[p]];
      return channel.isShown && !channel.isBundled;
    };
    for (const component of net.shownComponents) {
      const chain = this.seat(component.path), last = chain[chain.length - 1];
      if (!folded.has(last)) this.node(last, `c${component.number}`, {component, isShown: isShown(component)});
    }
    for (const channel of net.shownChannels) if (channel.isStub) this.noteCaller(channel);
    for (const channel of net.shownChannels) this.putChannel(channel);
  }

  level(path) {
    if (!this.byPath.has(path)) this.byPath.set(path, {path, nodes: new Map(), edges: []});
    return this.byPath.get(path);
  }

  node(path, id, members) {
    const {nodes} = this.level(path);
    if (!nodes.has(id)) nodes.set(id, {id, ...members});
    return nodes.get(id);
  }

  seat(path) {
    const chain = [''];
    if (path === '') return chain;
    let at = '';
    for (const step of path.split('/')) {
      at = at === '' ? step : `${at}/${step}`;
      this.node(chain[chain.length - 1], `i${at}`, {box: at, stubs: {o: [], e: []}});
      chain.push(at);
      if (this.folded.has(at)) break;
    }
    return chain;
  }

  endOf(end, channel, side) {
    if (end === 'host') return {chain: [''], id: `p${channel.number}`};
    const chain = this.seat(this.net.components[end.component].path), last = chain[chain.length - 1];
    if (!this.folded.has(last)) return {chain, id: `c${end.component}`, tip: end.port};
    return {chain: chain.slice(0, -1), id: `i${last}`, tip: side + channel.number, isBox: true};
  }

  putChannel(channel) {
    if (channel.port) this.node('', `p${channel.number}`, {port: channel});
    if (!channel.active || !channel.passive) return;
    const tail = this.endOf(channel.active, channel, 'o'), head = this.endOf(channel.passive, channel, 'e');
    if (tail.id === head.id && (tail.isBox || channel.active === 'host')) return;
    if (this.putIntoBundle(channel, tail, head)) return;
    if (channel.isStub) {
      this.putStub(tail, 'o', channel);
      this.putStub(head, 'e', channel);
      return;
    }
    let common = 0;
    while (common + 1 < tail.chain.length && tail.chain[common + 1] === head.chain[common + 1]) common++;
    const edge = {channel, tail: this.passGates(tail, common, channel, 'o'), head: this.passGates(head, common, channel, 'e')};
    this.level(tail.chain[common]).edges.push(edge);
  }

  noteCaller(channel) {
    const tail = this.endOf(channel.active, channel, 'o'), key = this.hubOf(channel);
    if (tail.isBox) this.callers.set(key, (this.callers.get(key) || new Set()).add(tail.id));
  }
  hubOf({passive, kind}) { return `${passive.component} ${kind}`; }

  putIntoBundle(channel, tail, head) {
    const callers = channel.isStub && tail.isBox && !head.isBox ? this.callers.get(this.hubOf(channel)).size : 1;
    const isCrowd = callers > BOX_CALLERS, key = isCrowd ? this.hubOf(channel) : `${tail.id} ${head.id}`;
    const first = this.bundles.get(key);
    Object.assign(channel, {bundle: [channel.number], isBundled: false, callers: isCrowd ? callers : 1});
    if (!tail.isBox && !head.isBox) return false;
    if (!first) this.bundles.set(key, channel);
    else {
      first.bundle.push(channel.number);
      channel.isBundled = true;
    }
    return channel.isBundled;
  }

  putStub(end, side, channel) {
    if (!end.isBox || channel.callers > 1) return;
    const stubs = this.node(end.chain[end.chain.length - 1], end.id).stubs[side];
    if (stubs.length < BOX_STUBS) stubs.push(channel.number);
  }

  passGates(end, common, channel, side) {
    const boxAt = i => ({id: `i${end.chain[i]}`, tip: side + channel.number});
    for (let i = common + 1; i < end.chain.length; i++) {
      const gate = {id: side + channel.number}, deeper = i + 1 < end.chain.length ? boxAt(i + 1) : end;
      this.node(end.chain[i], gate.id, {gate: side, channel});
      const [tail, head] = side === 'o' ? [deeper, gate] : [gate, deeper];
      this.level(end.chain[i]).edges.push({channel, tail, head});
    }
    return common + 1 < end.chain.length ? boxAt(common + 1) : end;
  }
}

class LevelLayout {
  constructor(level, inner, folded, before) {
    this.isTop = level.path === '';
    this.nodes = [...level.nodes.values()];
    this.sizeNodes(inner, folded);
    this.joinEdges(level);
    this.turnCircles();
    this.assignLayers();
    this.standGatesApart();
    this.threadEdges();
    this.orderFirst();
    this.keepOrder(before);
    this.orderBySweeps();
    this.exchangeNeighbours();
    this.settleHeights();
    this.closeGaps();
    this.placeColumns();
    this.placeFrame();
    this.drawLines();
  }

  sizeNodes(inner, folded) {
    const isCrowded = this.nodes.length > 120;
    for (const node of this.nodes) {
      Object.assign(node, {below: 0, gap: isCrowded ? 8 : NODE_GAP, spaceLeft: 0, spaceRight: 0, captionWidth: 0, tips: null});
      if (node.gate) Object.assign(node, {width: 0, height: 0, gap: 8});
      else if (node.port) Object.assign(node, {width: Math.max(34, 14 + 7 * node.port.port.length), height: 26});
      else if (node.component) sizeComponent(node);
      else {
        node.gap += 4;
        node.layout = folded.has(node.box) ? null : inner(node.box);
        if (node.layout) Object.assign(node, {width: node.layout.width, height: node.layout.height, tips: node.layout.gates});
      }
    }
  }

  joinEdges(level) {
    const boxes = this.nodes.filter(node => node.box && !node.layout);
    const sides = new Map(boxes.map(node => [node.id, {o: node.stubs.o.slice(), e: node.stubs.e.slice()}]));
    for (const {channel, tail, head} of level.edges) {
      if (sides.has(tail.id)) sides.get(tail.id).o.push(channel.number);
      if (sides.has(head.id)) sides.get(head.id).e.push(channel.number);
    }
    for (const node of boxes) sizeBox(node, sides.get(node.id));
    this.edges = level.edges.map(({channel, tail, head}) => {
      const ends = {tail: level.nodes.get(tail.id), head: level.nodes.get(head.id)};
      const edge = {channel, ...ends, tailPort: tail.tip, headPort: head.tip};
      edge.tailTip = tipOf(edge.tail, tail.tip, 1);
      edge.headTip = tipOf(edge.head, head.tip, -1);
      return edge;
    });
  }

  turnCircles() {
    for (const node of this.nodes) Object.assign(node, {out: [], in: []});
    for (const edge of this.edges) edge.tail.out.push(edge);
    const OPEN = 1, DONE = 2, state = new Map();
    const visit = root => {
      const stack = [{node: root, next: 0}];
      state.set(root, OPEN);
      while (stack.length) {
        const top = stack[stack.length - 1], edge = top.node.out[top.next++];
        if (!edge) {
          state.set(top.node, DONE);
          stack.pop();
        } else if (state.get(edge.head) === OPEN) edge.isBack = true;
        else if (!state.has(edge.head)) {
          state.set(edge.head, OPEN);
          stack.push({node: edge.head, next: 0});
        }
      }
    };
    const heads = new Set(this.edges.map(edge => edge.head));
    this.firsts = this.nodes.filter(node => node.gate === 'e' || node.port && node.port.isHostCaller);
    const roots = [...this.firsts, ...this.nodes.filter(node => !heads.has(node)), ...this.nodes];
    for (const node of roots) if (!state.has(node)) visit(node);
    for (const node of this.nodes) node.out = [];
    for (const edge of this.edges) {
      [edge.from, edge.to] = edge.isBack ? [edge.head, edge.tail] : [edge.tail, edge.head];
      if (edge.from === edge.to) continue;
      edge.from.out.push(edge);
      edge.to.in.push(edge);
    }
  }

  assignLayers() {
    const order = this.nodes.filter(node => node.in.length === 0);
    const waiting = new Map(this.nodes.map(node => [node, node.in.length]));
    for (const node of order) {
      node.layer = node.in.reduce((layer, edge) => Math.max(layer, edge.from.layer + 1), 0);
      for (const {to} of node.out) {
        waiting.set(to, waiting.get(to) - 1);
        if (waiting.get(to) === 0) order.push(to);
      }
    }
    this.last = this.nodes.reduce((last, node) => Math.max(last, node.layer), 0);
    this.standHubsApart();
    for (let turn = 0; turn < 8; turn++)
      for (const node of turn % 2 ? order : order.slice().reverse()) if (!node.isHub) node.layer = this.bestLayer(node);
  }

  standHubsApart() {
    const isHub = node => node.component && node.component.isHub;
    const isApart = node => node.component.stubs && node.in.length === 0 && node.out.every(edge => isHub(edge.to));
    const hubs = this.nodes.filter(node => isHub(node) && isApart(node));
    if (this.last <= 2 || hubs.length === 0) return;
    for (const hub of hubs) {
      Object.assign(hub, {isHub: true, layer: hub.out.length ? this.last + 1 : this.last + 2});
      for (const {to} of hub.out) Object.assign(to, {isHub: true, layer: this.last + 2});
    }
    this.last += 2;
  }

  bestLayer(node) {
    if (node.gate === 'e') return 0;
    if (node.gate || node.port && !node.port.isHostCaller && node.out.length === 0) return this.last;
    const least = node.in.reduce((layer, edge) => Math.max(layer, edge.from.layer + 1), 0);
    const most = node.out.reduce((layer, edge) => Math.min(layer, edge.to.layer - 1), this.last);
    if (node.in.length > node.out.length) return least;
    if (node.out.length > node.in.length) return most;
    return node.in.length ? Math.min(Math.max(node.layer, least), most) : node.layer;
  }

  standGatesApart() {
    const {nodes} = this, isIn = node => node.gate === 'e', isOut = node => node.gate === 'o';
    if (nodes.some(isIn) && nodes.some(node => !node.gate && node.layer === 0)) {
      for (const node of nodes) if (!isIn(node)) node.layer++;
      this.last++;
    }
    if (nodes.some(isOut) && nodes.some(node => !node.gate && node.layer === this.last)) this.last++;
    for (const node of nodes) if (isOut(node)) node.layer = this.last;
    this.layers = Array.from({length: this.last + 1}, () => []);
  }

  threadEdges() {
    this.threads = [];
    const knots = [];
    for (const edge of this.edges) {
      edge.knots = [];
      if (edge.from === edge.to) continue;
      const leaves = edge.isBack ? edge.headTip : edge.tailTip, arrives = edge.isBack ? edge.tailTip : edge.headTip;
      let a = edge.from;
      for (let layer = edge.from.layer + 1; layer <= edge.to.layer; layer++) {
        const isEnd = layer === edge.to.layer;
        const b = isEnd ? edge.to : {isKnot: true, layer, width: 0, height: 0, below: 0, gap: THREAD_GAP, tips: null};
        const weight = isEnd ? (a.isKnot ? 2 : 1) : (a.isKnot ? 8 : 2);
        this.threads.push({a, b, ay: a.isKnot ? 0 : leaves.y, by: isEnd ? arrives.y : 0, weight, edge,
          tailAt: a.isKnot || edge.isBack ? null : a, headAt: isEnd && !edge.isBack ? b : null});
        if (!isEnd) edge.knots.push(b);
        a = b;
      }
      knots.push(...edge.knots);
    }
    this.all = [...this.nodes, ...knots];
    for (const node of this.all) Object.assign(node, {left: [], right: []});
    for (const thread of this.threads) {
      thread.a.right.push(thread);
      thread.b.left.push(thread);
    }
  }

  orderFirst() {
    const seen = new Set();
    for (const first of [...this.firsts, ...this.nodes.filter(node => node.left.length === 0), ...this.nodes]) {
      const stack = [first];
      while (stack.length) {
        const node = stack.pop();
        if (seen.has(node)) continue;
        seen.add(node);
        this.layers[node.layer].push(node);
        stack.push(...node.right.slice().sort((x, y) => x.ay - y.ay).map(thread => thread.b).reverse());
      }
    }
  }

  keepOrder(before) {
    const isKnown = node => before.has(node.id), height = node => before.get(node.id).y;
    for (const layer of before.size ? this.layers : []) {
      const known = layer.filter(isKnown).sort((a, b) => height(a) - height(b));
      layer.forEach((node, i) => { if (isKnown(node)) layer[i] = known.shift(); });
    }
  }

  numberNodes() {
    for (const layer of this.layers) layer.forEach((node, index) => { node.index = index; });
    this.untwist();
  }

  untwist() {
    for (const node of this.nodes) if (node.component) {
      const goOut = node.right.filter(thread => thread.tailAt === node);
      const comeIn = node.left.filter(thread => thread.headAt === node);
      if (!node.component.isOrdered) turnSide(node, goOut, node.outPorts, 'b', 'tailPort', 'ay');
      turnSide(node, comeIn, node.inPorts, 'a', 'headPort', 'by');
    }
  }

  crossings() {
    let sum = 0;
    for (const layer of this.layers) {
      const threads = layer.flatMap(node => node.right).sort((x, y) => x.a.index - y.a.index || x.ay - y.ay);
      const passed = [];
      for (const {b, by} of threads) {
        const key = b.index * 4096 + by + 2048, at = countIn(passed, 0, passed.length, key);
        sum += passed.length - at;
        passed.splice(at, 0, key);
      }
    }
    return sum;
  }

  orderBySweeps() {
    this.numberNodes();
    let least = this.crossings(), best = this.layers.map(layer => layer.slice());
    const sweeps = this.nodes.length > 3000 ? 6 : 20;
    for (let turn = 0; turn < sweeps && least > 0; turn++) {
      for (const layer of turn % 2 ? this.layers.slice().reverse() : this.layers) {
        const keys = new Map(layer.map((node, index) => [node, middleOf(node, turn % 2 ? 'right' : 'left') ?? index]));
        layer.sort((x, y) => keys.get(x) - keys.get(y) || x.index - y.index);
        layer.forEach((node, index) => { node.index = index; });
      }
      this.untwist();
      const found = this.crossings();
      if (found < least) [least, best] = [found, this.layers.map(layer => layer.slice())];
    }
    this.layers = best;
    this.numberNodes();
  }

  exchangeNeighbours() {
    for (let turn = 0, isChanged = true; isChanged && turn < 8; turn++) {
      isChanged = false;
      for (const layer of this.layers) for (let i = 0; i + 1 < layer.length; i++) {
        const [above, below] = [layer[i], layer[i + 1]];
        if (pairCrossings(below, above) >= pairCrossings(above, below)) continue;
        [layer[i], layer[i + 1]] = [below, above];
        [below.index, above.index] = [i, i + 1];
        isChanged = true;
      }
    }
    this.untwist();
    this.crossed = this.crossings();
  }

  settleHeights() {
    for (const layer of this.layers) {
      let y = 0;
      for (const node of layer) {
        node.y = y + node.height / 2;
        y += node.height + node.below + node.gap;
      }
    }
    const back = this.layers.slice().reverse();
    for (let turn = 0; turn < 12; turn++) {
      for (const layer of this.layers) settle(layer, true, false);
      for (const layer of back) settle(layer, false, true);
    }
    for (let turn = 0; turn < 6; turn++) for (const layer of turn % 2 ? back : this.layers) settle(layer, true, true);
  }

  closeGaps() {
    const groups = joinedGroups(this.all, this.threads);
    if (groups.length < 2) return;
    const top = node => node.y - node.height / 2, floor = this.layers.map(() => -Infinity);
    for (const group of groups) group.top = group.reduce((least, node) => Math.min(least, top(node)), Infinity);
    for (const group of groups.sort((x, y) => x.top - y.top)) {
      let rise = group.reduce((least, node) => Math.min(least, top(node) - node.gap - floor[node.layer]), Infinity);
      if (rise === Infinity) rise = group.top;
      for (const node of group) {
        node.y -= rise;
        floor[node.layer] = Math.max(floor[node.layer], node.y + node.height / 2 + node.below);
      }
    }
  }

  placeColumns() {
    let x = 30;
    this.columns = this.layers.map((layer, k) => {
      const isInGate = k === 0 && !this.isTop && layer.every(node => node.gate);
      const width = layer.reduce((most, node) =>
        Math.max(most, node.width + 2 * Math.max(node.spaceLeft || 0, node.spaceRight || 0), (node.captionWidth || 0) - 6), 0);
      const rise = thread => Math.abs(thread.a.y + thread.ay - thread.b.y - thread.by);
      const steepest = layer.flatMap(node => node.right).reduce((most, thread) => Math.max(most, rise(thread)), 0);
      const column = isInGate ? {left: 0, right: 0} : {left: x, right: x + width};
      for (const node of layer) node.x = (column.left + column.right) / 2;
      if (!isInGate) x += width + (k < this.last ? Math.min(130, COLUMN_GAP + steepest / 9) : 0);
      return column;
    });
    this.width = x + 30;
    for (const node of this.nodes) if (node.gate === 'o') node.x = this.width;
    if (this.layers[this.last].some(node => node.gate === 'o')) this.columns[this.last] = {left: this.width, right: this.width};
  }

  placeFrame() {
    const top = this.all.reduce((least, node) => Math.min(least, node.y - node.height / 2), Infinity);
    const bottom = this.all.reduce((most, node) => Math.max(most, node.y + node.height / 2 + node.below), -Infinity);
    const shift = this.all.length ? (this.isTop ? 14 : 30) - top : 30;
    this.height = (this.all.length ? bottom : 0) + shift + 14;
    this.gates = new Map();
    for (const node of this.all) {
      node.y += shift;
      const side = node.gate === 'o' ? 1 : -1;
      if (node.gate) this.gates.set(node.id, {x: side * this.width / 2, y: node.y - this.height / 2});
    }
  }

  drawLines() {
    this.lines = this.edges.map(edge => {
      const start = {x: edge.tail.x + edge.tailTip.x, y: edge.tail.y + edge.tailTip.y};
      const end = {x: edge.head.x + edge.headTip.x, y: edge.head.y + edge.headTip.y};
      const out = edge.isBack || edge.from === edge.to ? 12 : 0, points = [start];
      points.push({x: Math.max(start.x, this.columns[edge.tail.layer].right + out), y: start.y});
      for (const knot of edge.isBack ? edge.knots.slice().reverse() : edge.knots) {
        const {left, right} = this.columns[knot.layer];
        points.push({x: edge.isBack ? right : left, y: knot.y}, {x: edge.isBack ? left : right, y: knot.y});
      }
      points.push({x: Math.min(end.x, this.columns[edge.head.layer].left - out), y: end.y}, end);
      return {channel: edge.channel, points, isFirst: edge.tail.gate === undefined && !(edge.tail.box && edge.tail.layout)};
    });
  }
}

function sizeComponent(node) {
  const {component, isShown} = node;
  const inPorts = component.passive.filter(isShown), outPorts = component.active.filter(isShown);
  const most = Math.max(inPorts.length, outPorts.length), height = Math.max(2 * RADIUS, most * PORT_STEP + 8);
  const isStub = p => component.stubs !== null && component.stubs.has(p);
  Object.assign(node, {inPorts, outPorts, width: 2 * RADIUS, height, below: CAPTION, tips: new Map(),
    isCut: inPorts.length + outPorts.length < component.channels.length - 1,
    captionWidth: LETTER * (component.number + ' ' + component.kind.slice(0, 14)).length,
    spaceLeft: component.passive.some(isStub) ? STUB_SPACE : 0, spaceRight: component.active.some(isStub) ? STUB_SPACE : 0});
  for (const [ports, sign] of [[inPorts, -1], [outPorts, 1]]) ports.forEach((port, i) => {
    const step = most > 3 ? PORT_STEP : ports.length < 2 ? 0 : Math.min(PORT_STEP, (height - 12) / (ports.length - 1));
    const y = (i - (ports.length - 1) / 2) * step, past = Math.max(0, Math.abs(y) - (height / 2 - RADIUS));
    node.tips.set(port, {x: sign * Math.sqrt(Math.max(0, RADIUS * RADIUS - past * past)), y});
  });
}

function sizeBox(node, sides) {
  const most = Math.max(sides.o.length, sides.e.length);
  Object.assign(node, {width: 96, height: Math.max(54, most * 12 + 14), tips: new Map(),
    spaceLeft: node.stubs.e.length ? STUB_SPACE : 0, spaceRight: node.stubs.o.length ? STUB_SPACE : 0});
  for (const side of ['o', 'e']) sides[side].forEach((channel, i) =>
    node.tips.set(side + channel, {x: side === 'o' ? 48 : -48, y: (i - (sides[side].length - 1) / 2) * 12}));
}

function tipOf(node, tip, sign) {
  return node.tips ? node.tips.get(tip) : {x: node.gate ? 0 : sign * node.width / 2, y: 0};
}

function turnSide(node, threads, ports, other, port, y) {
  if (ports.length < 2 || threads.length !== ports.length) return;
  const sorted = threads.slice().sort((x, z) => x[other].index - z[other].index);
  const tips = sorted.map(thread => node.tips.get(thread.edge[port]));
  const places = tips.map(tip => ({...tip})).sort((p, q) => p.y - q.y);
  sorted.forEach((thread, i) => {
    Object.assign(tips[i], places[i]);
    thread[y] = places[i].y;
  });
}

function middleOf(node, side) {
  const threads = node[side];
  if (threads.length === 0) return null;
  const places = threads.map(({a, b, ay, by}) => {
    const [other, y] = side === 'left' ? [a, ay] : [b, by];
    return other.index + 0.9 * y / Math.max(other.height || 1, 20);
  });
  return places.reduce((sum, place) => sum + place, 0) / places.length;
}

function pairCrossings(above, below) {
  let sum = 0;
  for (const x of above.left) for (const y of below.left) if (y.a.index < x.a.index || y.a === x.a && y.ay < x.ay) sum++;
  for (const x of above.right) for (const y of below.right) if (y.b.index < x.b.index || y.b === x.b && y.by < x.by) sum++;
  return sum;
}

function settle(layer, byLeft, byRight) {
  const blocks = [];
  let offset = 0;
  layer.forEach((node, i) => {
    const above = layer[i - 1];
    if (above) {
      const gap = above.isKnot || node.isKnot ? THREAD_GAP : Math.min(above.gap, node.gap);
      offset += above.height / 2 + above.below + gap + node.height / 2;
    }
    node.offset = offset;
    let sum = 0, weight = 0;
    const wish = (thread, y) => { sum += thread.weight * y; weight += thread.weight; };
    if (byLeft) for (const it of node.left) wish(it, it.a.y + it.ay - it.by);
    if (byRight) for (const it of node.right) wish(it, it.b.y + it.by - it.ay);
    if (weight === 0) [sum, weight] = [0.1 * node.y, 0.1];
    blocks.push({sum: sum - weight * offset, weight, first: i});
    while (blocks.length > 1) {
      const [upper, lower] = blocks.slice(-2);
      if (upper.sum / upper.weight <= lower.sum / lower.weight) break;
      upper.sum += lower.sum;
      upper.weight += lower.weight;
      blocks.pop();
    }
  });
  blocks.forEach((block, k) => {
    const end = k + 1 < blocks.length ? blocks[k + 1].first : layer.length;
    for (let i = block.first; i < end; i++) layer[i].y = block.sum / block.weight + layer[i].offset;
  });
}

function joinedGroups(nodes, threads) {
  const leader = new Map(nodes.map(node => [node, node]));
  const find = node => {
    let root = node;
    while (leader.get(root) !== root) root = leader.get(root);
    for (let at = node; at !== root;) {
      const next = leader.get(at);
      leader.set(at, root);
      at = next;
    }
    return root;
  };
  for (const {a, b} of threads) leader.set(find(b), find(a));
  const groups = new Map();
  for (const node of nodes) {
    const root = find(node);
    if (!groups.has(root)) groups.set(root, []);
    groups.get(root).push(node);
  }
  return [...groups.values()];
}


function layLevels(net, folded, before, columnOf) {
  const levels = new Levels(net, folded), laid = new Map();
  const inner = path => {
    if (!laid.has(path)) laid.set(path, new LevelLayout(levels.level(path), inner, folded, before));
    return laid.get(path);
  };
  if (!columnOf) return [inner('')];
  const root = levels.level(''), count = 1 + Math.max(...columnOf.values());
  return Array.from({length: count}, (none, column) => {
    const nodes = new Map([...root.nodes].filter(([id]) => columnOf.get(id) === column));
    const edges = root.edges.filter(edge => nodes.has(edge.tail.id));
    return new LevelLayout({path: '', nodes, edges}, inner, folded, before);
  });
}

function markStubs(net, isWanted) {
  for (const component of net.shownComponents) component.stubs = null;
  for (const channel of net.shownChannels) channel.isStub = false;
  if (!isWanted) return;
  for (const component of net.shownComponents) if (component.passive.length > 4 && component.isHub)
    for (const port of component.passive) {
      const channel = net.channels[component.channels[port]];
      const {active} = channel, asker = active && active !== 'host' ? net.components[active.component] : null;
      if (channel.isShown && asker && !asker.isCall) makeStub(net, channel);
    }
}

function makeStub(net, channel) {
  channel.isStub = true;
  for (const end of [channel.active, channel.passive]) if (end && end !== 'host') {
    const component = net.components[end.component];
    component.stubs = component.stubs || new Set();
    component.stubs.add(end.port);
  }
}

function cutInColumns(net, whole, count) {
  const columnOf = new Map();
  const place = node => Math.min(count - 1, Math.max(0, Math.floor(count * node.y / whole.height)));
  for (const node of whole.nodes) if (!node.port) columnOf.set(node.id, place(node));
  for (const node of whole.nodes) if (node.port) {
    const edge = [...node.out, ...node.in][0], other = edge && (edge.from === node ? edge.to : edge.from);
    columnOf.set(node.id, other && columnOf.has(other.id) ? columnOf.get(other.id) : place(node));
  }
  for (const edge of whole.edges) if (columnOf.get(edge.tail.id) !== columnOf.get(edge.head.id)) makeStub(net, edge.channel);
  return columnOf;
}

const TALL = 1400, WIDE_TO_HIGH = 1.5;

function layout(net, folded, isStubbed, before) {
  markStubs(net, isStubbed);
  let levels = layLevels(net, folded, before);
  const [{width, height}] = levels, columns = Math.round(Math.sqrt(WIDE_TO_HIGH * height / width));
  if (height > TALL && columns > 1) levels = layLevels(net, folded, before, cutInColumns(net, levels[0], columns));
  const picture = {width: 0, height: 0, nodes: [], frames: [], lines: new Map(), stubs: new Map(), crossed: 0};
  const pieces = new Map();
  for (const level of levels) {
    placeLevel(level, picture.width, 0, picture, pieces);
    picture.width += level.width;
    picture.height = Math.max(picture.height, level.height);
  }
  for (const [channel, parts] of pieces) picture.lines.set(channel, joinPieces(parts));
  placeStubs(net, picture);
  return picture;
}

function placeLevel(level, dx, dy, picture, pieces) {
  picture.crossed += level.crossed;
  for (const node of level.nodes) {
    const x = node.x + dx, y = node.y + dy;
    if (node.layout) {
      const frame = {path: node.box, x: x - node.width / 2, y: y - node.height / 2, width: node.width, height: node.height};
      picture.frames.push(frame);
      placeLevel(node.layout, frame.x, frame.y, picture, pieces);
    } else if (!node.gate) picture.nodes.push({...node, x, y});
  }
  for (const {channel, points, isFirst} of level.lines) {
    if (!pieces.has(channel.number)) pieces.set(channel.number, []);
    pieces.get(channel.number).push({points: points.map(point => ({x: point.x + dx, y: point.y + dy})), isFirst});
  }
}

function joinPieces(pieces) {
  const isNear = (p, q) => Math.abs(p.x - q.x) < 0.6 && Math.abs(p.y - q.y) < 0.6;
  const left = pieces.slice(), first = left.find(piece => piece.isFirst) || left[0], points = first.points.slice();
  left.splice(left.indexOf(first), 1);
  for (let next; (next = left.find(piece => isNear(piece.points[0], points[points.length - 1])));) {
    points.push(...next.points.slice(1));
    left.splice(left.indexOf(next), 1);
  }
  return points;
}

function placeStubs(net, picture) {
  const seats = new Map(picture.nodes.map(node => [node.id, node]));
  const seatOf = (end, channel, side) => {
    const seat = seats.get(`c${end.component}`);
    if (seat) return {seat, tip: seat.tips.get(end.port)};
    const {path} = net.components[end.component], steps = path.split('/');
    const box = steps.map((step, i) => seats.get(`i${steps.slice(0, i + 1).join('/')}`)).find(it => it);
    return box ? {seat: box, tip: box.tips.get(side + channel.number)} : null;
  };
  for (const channel of net.shownChannels) if (channel.isStub && !channel.isBundled) {
    const pieces = [];
    for (const [end, side, dx] of [[channel.active, 'o', 16], [channel.passive, 'e', -16]]) {
      const found = end === 'host' ? null : seatOf(end, channel, side);
      if (!found || !found.tip) continue;
      pieces.push({x: found.seat.x + found.tip.x, y: found.seat.y + found.tip.y, dx, isOut: side === 'o'});
    }
    if (pieces.length) picture.stubs.set(channel.number, pieces);
  }
}


const isLevel = (a, b) => Math.abs(a.y - b.y) < 0.5;
const isSame = (a, b) => isLevel(a, b) && Math.abs(a.x - b.x) < 0.5;

function bendOf(a, b) {
  const dx = b.x - a.x;
  return dx > 0 ? dx / 2 : Math.max(18, Math.min(60, -dx / 2));
}

function curve(points) {
  const at = (x, y) => `${Math.round(x * 10) / 10} ${Math.round(y * 10) / 10}`;
  let text = `M${at(points[0].x, points[0].y)}`;
  for (let i = 1; i < points.length; i++) {
    const a = points[i - 1], b = points[i], bend = bendOf(a, b);
    if (isSame(a, b)) continue;
    text += isLevel(a, b) ? `L${at(b.x, b.y)}` : `C${at(a.x + bend, a.y)} ${at(b.x - bend, b.y)} ${at(b.x, b.y)}`;
  }
  return text;
}

function walkOf(points) {
  const walk = [{x: points[0].x, y: points[0].y, way: 0}];
  const go = (x, y) => {
    const last = walk[walk.length - 1];
    walk.push({x, y, way: last.way + Math.hypot(x - last.x, y - last.y)});
  };
  for (let i = 1; i < points.length; i++) {
    const a = points[i - 1], b = points[i], bend = bendOf(a, b);
    if (isSame(a, b)) continue;
    if (isLevel(a, b)) go(b.x, b.y);
    else for (let k = 1; k <= 16; k++) {
      const t = k / 16, u = 1 - t, f0 = u * u * u, f1 = 3 * u * u * t, f2 = 3 * u * t * t, f3 = t * t * t;
      go(f0 * a.x + f1 * (a.x + bend) + f2 * (b.x - bend) + f3 * b.x, (f0 + f1) * a.y + (f2 + f3) * b.y);
    }
  }
  if (walk.length === 1) go(points[0].x + 1, points[0].y);
  return walk;
}

function onWalk(walk, way) {
  let i = 1;
  while (i < walk.length - 1 && walk[i].way < way) i++;
  const a = walk[i - 1], b = walk[i], t = b.way > a.way ? (way - a.way) / (b.way - a.way) : 0;
  return {x: a.x + t * (b.x - a.x), y: a.y + t * (b.y - a.y), angle: Math.atan2(b.y - a.y, b.x - a.x) * 180 / Math.PI};
}

const cut = (text, most) => (text.length > most ? text.slice(0, most - 1) + '…' : text);
const counted = (count, one, many = `${one}s`) => `${count} ${count === 1 ? one : many}`;

const OPERATIONS = {
  Add: '+', Subtract: '−', ReverseSubtract: '−r', Negate: '−', Equals: '=', NotEquals: '≠', LessThan: '<', GreaterThan: '>',
  LessOrEquals: '≤', GreaterOrEquals: '≥', And: '∧', Or: '∨', Xor: '⊕', Invert: '¬',
};
const isOperation = word => Object.hasOwn(OPERATIONS, word);

const shortName = name => cut(name.length > 5 ? name.replace(/(.)\[.*$/, '$1') : name, 5);

function signOf({isVariable, active, detail, sign, kind}) {
  const [first, second] = detail.split(' ');
  if (first && (isVariable || active.length === 0)) return shortName(first);
  if (isOperation(first)) return OPERATIONS[first] + (second ? cut(second, 4) : '');
  return sign || kind.slice(0, 4);
}

const componentName = it => `${it.kind} ${it.number}` + (it.isVariable && it.detail ? ` ${it.detail.split(' ')[0]}` : '');
const channelName = it => `channel ${it.number}` + (it.name ? ` ${it.name}` : '');

function endName(channel, end) {
  if (end === null) return 'nobody';
  return end === 'host' ? `the host at ${channel.port}` : componentName(net.components[end.component]);
}

function placeOf(item) {
  const inside = item.path && !net.isGrouped ? ` (in ${item.path})` : '', source = item.source ? `, from ${item.source}` : '';
  return `${item.part} ${item.position}, line ${item.line} of the netlist${inside}${source}`;
}

const endsOf = channel => `from ${endName(channel, channel.active)} to ${endName(channel, channel.passive)}`;
const kindOf = channel => channel.kind + (channel.width ? ` ${channel.width}` : '');
const channelTitle = channel => `${channelName(channel)} ${kindOf(channel)}: ${endsOf(channel)}\n${placeOf(channel)}`;
const componentTitle = component => `${component.title}\n${placeOf(component)}`;

function tell(line) {
  if (line === 1) return 'The opening: every channel is idle.';
  const what = trace.what[line], component = net.components[trace.component[line]];
  if (what === REST) return 'Rest: a firing was still due, and no component can move.';
  if (what === CLASH) {
    const first = found.met.get(component.number);
    return `Two requests met at ${component.title}${first ? `, first at line ${first}` : ''}.`;
  }
  if (!component) return tellHost(lineText(trace, line).split(' '));
  return net.channels[trace.channel[line]] ? tellFiring(line, component) : lineText(trace, line);
}

function tellFiring(line, component) {
  const what = trace.what[line], channel = net.channels[trace.channel[line]], value = valueIn(trace, line);
  const other = endName(channel, what === ASK || what === GOT ? channel.passive : channel.active);
  const verb = ['', 'asks', 'takes the request of', 'replies to', 'has the reply of'][what];
  return `${componentName(component)} ${verb} ${other} on ${channelName(channel)}${value ? `, value ${value}` : ''}`;
}

function tellShortly(line) {
  const what = trace.what[line], component = net.components[trace.component[line]];
  const channel = net.channels[trace.channel[line]], value = valueIn(trace, line);
  if (!component || !isMove(what) || !channel) return tell(line);
  const name = componentName(component);
  const other = endName(channel, what === ASK || what === GOT ? channel.passive : channel.active);
  if (what === ASK) return `${name} asks ${other}${value && ` with ${value}`}`;
  if (what === REPLY) return `${name} replies ${value && `${value} `}to ${other}`;
  const [verb, noun] = what === TAKE ? ['takes', 'request'] : ['gets', 'reply'];
  return `${name} ${verb} ${value ? `${value} from` : `the ${noun} of`} ${other}`;
}

function tellHost([who, verb, port, ...told]) {
  const host = who === 'h1' ? 'The host' : `Host ${who.slice(1)}`;
  const does = {offer: 'asks at', collect: 'collects the reply at', accept: 'takes the request at', answer: 'replies at'}[verb];
  return `${host} ${does || 'looks at'} ${port}: ${told.join(' ')}`;
}

const $ = id => document.getElementById(id);

function svg(name, attributes = {}, text) {
  const element = document.createElementNS('http://www.w3.org/2000/svg', name);
  for (const [key, value] of Object.entries(attributes)) element.setAttribute(key, value);
  if (text !== undefined) element.textContent = text;
  return element;
}
function html(tag, style, text) {
  const element = document.createElement(tag);
  if (style) element.className = style;
  if (text !== undefined) element.textContent = text;
  return element;
}

let net = null, trace = null, found = null, all = null;

const added = {isLive: false, afterShow() {}, takesClick() { return false; }, endsInFocus() { return []; }, saved: null};

const MANY = 300, IN_FOCUS = 90, NEAR = 40, REFOCUS = 25;

const view = {line: 1, selected: null, isFocused: false, focusLine: 0, folded: new Set(), foldedInFocus: new Set(),
  foldedAtFirst: [], isStubbed: null, picture: null, box: null, isFollowing: false, panel: '', only: '', isInWords: false,
  isCounted: false, isFit: true, warnedAt: 0, hasRing: false, layoutTime: 0};

const drawn = {channels: new Map(), components: new Map(), boxes: new Map(), ports: new Map(), inside: new Map(), line: 0,
  here: 0};

const foldedNow = () => (view.isFocused ? view.foldedInFocus : view.folded);
const isStubbedNow = () => (view.isStubbed === null ? net.shownComponents.length > 60 : view.isStubbed);
const numberOf = selected => Number(selected.slice(1));

function draw() {
  const began = performance.now(), before = placesOf(view.isFocused && view.picture);
  if (view.isFocused) showNear(view.line); else showOnly(all.components, all.channels);
  view.picture = layout(net, foldedNow(), isStubbedNow(), before);
  view.layoutTime = performance.now() - began;
  for (const map of [drawn.channels, drawn.components, drawn.boxes, drawn.ports]) map.clear();
  drawn.line = 0;
  drawn.inside = insideBoxes();
  const layers = {frames: svg('g'), lines: svg('g'), nodes: svg('g'), marks: svg('g')}, {picture} = view;
  for (const frame of picture.frames) layers.frames.append(frameOf(frame));
  const labels = [];
  for (const [number, points] of picture.lines) drawChannel(net.channels[number], points, layers, labels);
  for (const [number, pieces] of picture.stubs) drawStub(net.channels[number], pieces, layers);
  for (const node of picture.nodes) layers.nodes.append(nodeOf(node));
  $('root').replaceChildren(layers.frames, layers.lines, layers.nodes, layers.marks);
}

function drawAnew() {
  const {picture, box, isFit} = view, before = placesOf(picture), old = seenOf(box);
  draw();
  if (isFit) fit();
  const seen = seenOf(view.box), stay = view.picture.nodes.filter(({id}) => before.has(id));
  if (stay.length < 2 || !Number.isFinite(old.size)) fit();
  else stayInPlace(stay, before, old, seen);
}

function stayInPlace(stay, before, old, seen) {
  const {isFit} = view, place = ({id}, at) => (before.get(id)[at] - old[at]) / old.size * seen.size;
  for (const [at, size] of [['x', 'width'], ['y', 'height']]) {
    const wanted = median(stay.map(it => it[at] - place(it, at))), least = view.picture[size] - seen[size];
    seen[at] = isFit ? Math.max(Math.min(least, 0), Math.min(Math.max(least, 0), wanted)) : wanted;
  }
  setBox({x: seen.x, y: seen.y, width: seen.width, height: seen.height}, isFit);
  glide(stay, it => ({x: place(it, 'x') + seen.x, y: place(it, 'y') + seen.y}));
}

const placesOf = picture => new Map(picture ? picture.nodes.map(it => [it.id, it]) : []);
const median = numbers => numbers.sort((a, b) => a - b)[numbers.length >> 1];

function seenOf(box) {
  const {width, height} = sizes.svg, size = pixel(sizes.svg, box);
  const wide = width * size, high = height * size;
  return {x: box.x + (box.width - wide) / 2, y: box.y + (box.height - high) / 2, width: wide, height: high, size};
}

function glide(nodes, placeBefore) {
  if (window.matchMedia('(prefers-reduced-motion: reduce)').matches) return;
  const moved = ({x, y}) => ({transform: `translate(${x.toFixed(1)}px, ${y.toFixed(1)}px)`});
  for (const node of nodes) {
    groupOf(node).animate([moved(placeBefore(node)), moved(node)], {duration: 200, easing: 'ease-out'});
  }
  $('root').children[1].animate([{opacity: 0}, {opacity: 1}], {duration: 200});
}

function groupOf({component, port, box}) {
  if (component) return drawn.components.get(component.number).group;
  return port ? drawn.ports.get(port.number) : drawn.boxes.get(box);
}

function insideBoxes() {
  const inside = new Map();
  for (const component of foldedNow().size ? net.shownComponents : []) {
    const box = boxOf(component);
    if (box) inside.set(box, (inside.get(box) || 0) + 1);
  }
  return inside;
}

function showOnly(components, channels) {
  for (const item of [...net.shownComponents || all.components, ...net.shownChannels || all.channels]) item.isShown = false;
  for (const item of components) item.isShown = true;
  for (const item of channels) item.isShown = true;
  Object.assign(net, {shownComponents: components, shownChannels: channels});
}

function showNear(line) {
  const kept = new Set(), keep = number => { if (kept.size < IN_FOCUS) kept.add(number); };
  const keepEnd = (end, at) => {
    if (!end || end === 'host') return;
    keep(end.component);
    for (const caller of callersOf(net, trace, net.components[end.component], at)) if (typeof caller === 'number') keep(caller);
  };
  view.hasRing = isStuckBehind(net, line);
  for (let distance = 0; distance <= NEAR; distance++) {
    for (const at of new Set([line - distance, line + distance])) {
      const channel = at > 1 && at <= trace.count && net.channels[trace.channel[at]];
      if (channel) for (const end of [channel.active, channel.passive]) keepEnd(end, at);
    }
    if (distance > 0) continue;
    if (view.hasRing) [...net.stuck.ring.keys()].forEach(keep);
    endsBeside(view.selected).forEach(keep);
  }
  for (const end of added.endsInFocus()) keepEnd(end, line);
  view.focusLine = line;
  const components = [...kept].sort((a, b) => a - b).map(number => net.components[number]);
  const isKept = end => end === 'host' || end !== null && kept.has(end.component);
  const numbers = new Set(components.flatMap(component => component.channels.slice(1)));
  const channels = [...numbers].sort((a, b) => a - b).map(number => net.channels[number]);
  showOnly(components, channels.filter(it => it && isKept(it.active) && isKept(it.passive)));
}

function endsBeside(selected) {
  if (!selected) return [];
  const number = numberOf(selected), isChannel = selected[0] === 'k';
  const beside = (isChannel ? [number] : net.components[number].channels.slice(1)).map(one => net.channels[one]);
  const ends = beside.flatMap(({active, passive}) => [active, passive]).filter(end => end && end !== 'host');
  return [...(isChannel ? [] : [number]), ...ends.map(end => end.component)];
}

function isDrawnWhole(selected) {
  const channels = selected[0] === 'k' ? [numberOf(selected)] : net.components[numberOf(selected)].channels.slice(1);
  return channels.every(number => drawn.channels.has(number) || !net.channels[number].active || !net.channels[number].passive);
}

function frameOf({path, x, y, width, height}) {
  const group = svg('g', {class: 'frame', 'data-copy': path});
  group.append(svg('rect', {x, y, width, height, rx: 8}));
  group.append(svg('text', {x: x + 8, y: y + 14}, `▾ ${path} ${net.instances.get(path).name}`));
  return group;
}

const dot = (style, {x, y}) => svg('circle', {class: style, cx: x, cy: y, r: 3.6});
const placed = ({x, y, angle = 0}, turn = 0) => `translate(${x.toFixed(1)} ${y.toFixed(1)}) rotate(${(angle + turn).toFixed(1)})`;
const ARROW = 'M5 0L-5 -4.5L-5 4.5Z';

function drawChannel(channel, points, layers, labels) {
  const group = channelGroup(channel), d = curve(points);
  const walk = walkOf(points), length = walk[walk.length - 1].way;
  group.append(svg('path', {class: 'hit', d}), svg('path', {class: 'line', d}));
  group.append(dot('active', points[0]), dot('passive', points[points.length - 1]));
  const isAlike = channel.bundle.every(number => net.channels[number].kind === channel.kind), kind = isAlike ? channel.kind : '';
  if (kind === 'push') group.append(svg('path', {class: 'arrow', d: ARROW, transform: placed(onWalk(walk, length - 9))}));
  if (kind === 'pull') group.append(svg('path', {class: 'arrow', d: ARROW, transform: placed(onWalk(walk, 9), 180)}));
  group.append(svg('title', {}, titleOfLine(channel)));
  layers.lines.append(group);
  const place = labelPlace(walk, length, labels), text = labelOf(channel);
  const label = svg('text', {class: 'number', x: place.x.toFixed(1), y: (place.y - 6).toFixed(1)}, text);
  const value = valueBox({x: place.x, y: place.y + 6});
  layers.marks.append(label, value);
  putDrawn(channel, {group, walk, length, value, label});
}

function labelOf(channel) {
  if (channel.bundle.length > 1) return `×${channel.bundle.length}`;
  return channel.number + (channel.name && channel.name !== channel.port ? ` ${cut(channel.name, 10)}` : '');
}

const MOST_TITLES = 20;
function titleOfLine({bundle}) {
  const told = bundle.slice(0, MOST_TITLES).map(number => channelTitle(net.channels[number])), more = bundle.length - MOST_TITLES;
  return told.join('\n') + (more > 0 ? `\nand ${counted(more, 'more channel')}` : '');
}

function channelGroup({number, bundle}) {
  const name = bundle.length > 1 ? {'data-bundle': bundle.join(' ')} : {'data-channel': number};
  return svg('g', {class: 'channel', ...name});
}

function putDrawn({bundle}, mark) {
  for (const number of bundle) drawn.channels.set(number, Object.assign(mark, {bundle, token: null}));
}

function labelPlace(walk, length, labels) {
  const places = [0.5, 0.38, 0.62, 0.28, 0.72].map(part => onWalk(walk, length * part));
  const isFree = place => !labels.some(other => Math.abs(other.x - place.x) < 14 && Math.abs(other.y - place.y) < 11);
  const place = places.find(isFree) || places[places.length - 1];
  labels.push(place);
  return place;
}

function valueBox(place) {
  const box = svg('g', {class: 'value', transform: placed(place)});
  box.append(svg('rect', {rx: 4, y: -7, height: 15}), svg('text', {y: 4}));
  return box;
}

function drawStub(channel, pieces, layers) {
  const group = channelGroup(channel);
  const d = pieces.map(({x, y, dx, isOut}) => (isOut ? `M${x} ${y}h${dx}` : `M${x + dx} ${y}h${-dx}`)).join('');
  group.append(svg('path', {class: 'hit', d}), svg('path', {class: 'line', d}), svg('title', {}, titleOfLine(channel)));
  const many = channel.bundle.length > 1 ? ` ${labelOf(channel)}` : '';
  for (const piece of pieces) {
    const {x, y, dx, isOut} = piece;
    group.append(dot(isOut ? 'active' : 'passive', piece));
    const style = `stub ${isOut ? 'starts' : 'ends'}`, isCrowd = channel.callers > 1;
    const name = isCrowd ? `▸${channel.callers} groups` : stubName(isOut ? channel.passive : channel.active, isOut);
    group.append(svg('text', {class: style, x: x + dx * 1.2, y: y + 3}, name + many));
    const isArrow = channel.kind === (isOut ? 'pull' : 'push');
    if (isArrow) group.append(svg('path', {class: 'arrow', d: ARROW, transform: placed({x: x + dx / 1.8, y}, isOut ? 180 : 0)}));
  }
  layers.lines.append(group);
  const {x, y, dx, isOut} = pieces[0], tip = {x: x + dx, y};
  const value = valueBox({x: x + dx * 2.4, y}), walk = walkOf(isOut ? [pieces[0], tip] : [tip, pieces[0]]);
  layers.marks.append(value);
  putDrawn(channel, {group, walk, length: walk[walk.length - 1].way, value, label: null});
}

function boxOf({path}, folded = foldedNow()) {
  if (path === '' || folded.size === 0) return undefined;
  const steps = path.split('/');
  return steps.map((step, i) => steps.slice(0, i + 1).join('/')).find(outer => folded.has(outer));
}

function stubName(end, isAnswering) {
  const component = net.components[end.component], box = boxOf(component);
  if (box) return `▸${box}`;
  if (!isAnswering) return String(component.number);
  return component.isVariable && component.detail ? signOf(component) : signOf(component) + component.number;
}

function nodeOf(node) {
  if (node.component) return drawComponent(node);
  if (node.port) return drawPort(node);
  return drawBox(node);
}

function drawComponent({component, x, y, width, height, isCut, inPorts, outPorts, tips}) {
  const group = svg('g', {'data-component': component.number, transform: placed({x, y})}), sign = signOf(component);
  const oval = (style, edge) => svg('rect', {class: style, x: -width / 2 - edge, y: -height / 2 - edge,
    width: width + 2 * edge, height: height + 2 * edge, rx: RADIUS + edge});
  group.append(oval('ring', 5), oval('body', 0));
  group.append(svg('text', {class: sign.length > 3 ? 'sign small' : 'sign', y: sign.length > 3 ? 4 : 6}, sign));
  if (isCut) group.append(svg('text', {class: 'more', y: height / 2 - 5}, '…'));
  for (const [ports, dx, style] of [[inPorts, -5, 'ends'], [outPorts, 5, 'starts']])
    for (const port of ports) if (component.ports[port]?.set)
      group.append(setOf(component.ports[port].set, tips.get(port), dx, style));
  const caption = svg('text', {class: 'caption', y: height / 2 + 13}, `${component.number} ${cut(component.kind, 14)}`);
  group.append(caption, svg('title', {}, componentTitle(component)));
  drawn.components.set(component.number, {group, caption});
  return group;
}

const setOf = (text, {x, y}, dx, style) => svg('text', {class: `set ${style}`, x: x + dx, y: y - 4}, cut(text, 9));

function drawPort({port, x, y, width, height}) {
  const group = svg('g', {'data-channel': port.number, transform: placed({x, y})});
  group.append(svg('rect', {x: -width / 2, y: -height / 2, width, height, rx: 3}), svg('text', {y: 4}, port.port));
  group.append(svg('title', {}, channelTitle(port)));
  drawn.ports.set(port.number, group);
  return group;
}

function drawBox({box, x, y, width, height}) {
  const group = svg('g', {class: 'folded', 'data-copy': box, transform: placed({x, y})});
  for (const [style, shift] of [['behind', 4], ['front', 0]])
    group.append(svg('rect', {class: style, x: -width / 2 + shift, y: -height / 2 - shift, width, height, rx: 6}));
  group.append(svg('text', {y: -2}, `▸ ${box} ${cut(net.instances.get(box).name, 12)}`));
  group.append(svg('text', {y: 13, class: 'caption'}, counted(drawn.inside.get(box) || 0, 'component')));
  drawn.boxes.set(box, group);
  return group;
}


function markPicture() {
  const {line} = view, steps = Math.abs(line - drawn.line), isAll = drawn.line === 0 || steps > 64;
  const channels = new Set(isAll ? drawn.channels.keys() : []), components = new Set(isAll ? drawn.components.keys() : []);
  for (let at = Math.min(line, drawn.line) + (isAll ? steps : 0); !isAll && at <= Math.max(line, drawn.line); at++) {
    if (trace.channel[at]) channels.add(trace.channel[at]);
    if (trace.component[at]) components.add(trace.component[at]);
  }
  if (isStuckBehind(net, line) !== isStuckBehind(net, drawn.line)) for (const number of net.stuck.members) components.add(number);
  for (const number of isAll ? [] : channels) for (const end of [net.channels[number].active, net.channels[number].passive])
    if (end && end !== 'host') components.add(end.component);
  for (const number of new Set([...channels].map(it => drawn.channels.get(it)?.bundle[0]))) markChannel(number);
  for (const number of components) markComponent(number);
  markBoxes();
  markPorts(isAll);
  drawn.line = line;
}

function shownOf(bundle) {
  const isOpen = change => phaseAfter(trace, change) !== IDLE;
  const rank = number => (change => (isOpen(change) ? change : -1))(lastChange(trace, number, view.line));
  return bundle.length > 1 ? bundle.reduce((best, number) => (rank(number) > rank(best) ? number : best)) : bundle[0];
}

function markChannel(number) {
  const mark = drawn.channels.get(number);
  if (!mark) return;
  const {bundle} = mark, shown = shownOf(bundle), change = lastChange(trace, shown, view.line);
  const phase = phaseAfter(trace, change), value = valueAfter(trace, change), {selected} = view;
  const isHere = bundle.includes(trace.channel[view.line]);
  const isSelected = selected !== null && selected[0] === 'k' && bundle.includes(numberOf(selected));
  const style = `channel ${net.channels[shown].kind} ${PHASES[phase]}${bundle.length > 1 ? ' bundle' : ''}`;
  mark.group.setAttribute('class', style + (isHere ? ' here' : '') + (isSelected ? ' selected' : ''));
  if (bundle.length > 1) mark.group.dataset.select = `k${shown}`;
  mark.value.setAttribute('class', `value${value === '' ? '' : ' on'}${bundle.length > 1 ? ' of-bundle' : ''}`);
  if (value !== '') {
    const [box, text] = mark.value.children, width = 8 + 7 * cut(value, 9).length;
    text.textContent = cut(value, 9);
    box.setAttribute('x', -width / 2);
    box.setAttribute('width', width);
  }
  if (mark.token) mark.token.remove();
  mark.token = tokenOf(mark, phase);
  if (mark.token) mark.group.append(mark.token);
}

function tokenOf({walk, length}, phase) {
  if (phase === IDLE) return null;
  if (phase === TAKEN) {
    const {x, y} = onWalk(walk, length - 7);
    return svg('rect', {class: 'token', x: -5, y: -5, width: 10, height: 10, transform: placed({x, y})});
  }
  const place = onWalk(walk, length * (phase === ASKED ? 0.74 : 0.26));
  return svg('path', {class: 'token', d: 'M8 0L-6 -7L-6 7Z', transform: placed(place, phase === REPLIED ? 180 : 0)});
}

const endedOn = bundle => bundle.reduce((sum, number) => sum + (countTo(trace.changesOf, number, view.line) >> 2), 0);

function markCounts() {
  $('svg').classList.toggle('counted', view.isCounted);
  const marks = [...new Set(drawn.channels.values())], counts = marks.map(({bundle}) => endedOn(bundle));
  const most = Math.log1p(counts.reduce((a, b) => Math.max(a, b), 1));
  marks.forEach(({group, label, bundle}, i) => {
    const isStill = bundle.every(number => countTo(trace.changesOf, number, view.line) === 0);
    group.setAttribute('style', `--wide: ${(1 + 9 * Math.log1p(counts[i]) / most).toFixed(1)}px`);
    group.dataset.moved = Number(!isStill);
    if (label) label.textContent = view.isCounted ? String(counts[i]) : labelOf(net.channels[bundle[0]]);
  });
  for (const [number, {group}] of drawn.components)
    group.dataset.moved = Number(countTo(trace.linesOfComponent, number, view.line) > 0);
}

const moverAt = line => (isMove(trace.what[line]) ? trace.component[line] : 0);

function markComponent(number) {
  const mark = drawn.components.get(number);
  if (!mark) return;
  const {line} = view, component = net.components[number];
  const phases = component.passive.map(p => phaseAfter(trace, lastChange(trace, component.channels[p], line)));
  const open = phases.filter(phase => phase !== IDLE).length;
  const isClash = component.isCall && open > 1 || trace.what[line] === CLASH && trace.component[line] === number;
  const isSelected = view.selected === `c${number}`;
  const stuck = isStill(net, trace, number, line);
  const styles = {stuck, 'in-ring': stuck && net.stuck.ring.has(number), busy: phases.includes(TAKEN),
    moved: moverAt(line) === number, selected: isSelected, clash: isClash};
  mark.group.setAttribute('class', ['component', ...Object.keys(styles).filter(style => styles[style])].join(' '));
  if (component.isVariable) mark.caption.textContent = `${number} ${component.kind} = ${cut(heldBy(trace, component, line), 9)}`;
}

function markBoxes() {
  const mover = moverAt(view.line), path = mover ? `${net.components[mover].path}/` : '';
  for (const [box, group] of drawn.boxes) group.setAttribute('class', path.startsWith(`${box}/`) ? 'folded moved' : 'folded');
  for (const number of drawn.boxes.size ? net.stuck.ring.keys() : []) if (isStill(net, trace, number, view.line))
    drawn.boxes.get(boxOf(net.components[number]))?.classList.add('in-ring');
}

const isRefused = line => trace.what[line] === TOLD && / (busy|not-yet|not-taken)/.test(lineText(trace, line));

function markPorts(isAll) {
  const {line} = view, here = trace.component[line] ? 0 : trace.channel[line];
  for (const number of isAll ? drawn.ports.keys() : [drawn.here, here]) {
    const group = drawn.ports.get(number);
    if (!group) continue;
    const style = number !== here ? '' : isRefused(line) ? ' refused' : ' moved';
    group.setAttribute('class', `port${style}${view.selected === `k${number}` ? ' selected' : ''}`);
  }
  drawn.here = here;
  $('svg').classList.toggle('resting', trace.what[line] === REST);
}

function markSelection(before) {
  for (const selected of [before, view.selected]) if (selected) {
    if (selected[0] === 'c') markComponent(numberOf(selected));
    else markChannel(numberOf(selected));
  }
  markPorts(true);
}


const NEAR_SCALE = 1.5, FAR_SCALE = 0.55, FARTHEST_SCALE = 0.28;

const sizes = {};
function measure() {
  for (const id of ['svg', 'journal', 'chart', 'strip']) sizes[id] = $(id).getBoundingClientRect();
}

function setBox(box, isFit = false) {
  Object.assign(view, {box, isFit});
  const scale = Math.min(sizes.svg.width / box.width, sizes.svg.height / box.height);
  $('svg').setAttribute('viewBox', `${box.x} ${box.y} ${box.width} ${box.height}`);
  if (scale > NEAR_SCALE) namePortsOfPicture();
  $('svg').classList.toggle('far', scale < FAR_SCALE);
  $('svg').classList.toggle('farthest', scale < FARTHEST_SCALE);
  $('svg').classList.toggle('near', scale > NEAR_SCALE);
}

function namePortsOfPicture() {
  if (view.picture.isNamed) return;
  view.picture.isNamed = true;
  for (const {component, tips, inPorts, outPorts} of view.picture.nodes) if (component) {
    const names = svg('g', {class: 'names'});
    const sides = [[inPorts, -6, 'ends'], [outPorts, 6, 'starts']].filter(([ports]) => ports.length > 1);
    for (const [ports, dx, style] of sides) for (const port of ports) {
      const {x, y} = tips.get(port);
      const {name, set} = component.ports[port];
      names.append(svg('text', {x: x + dx, y: y - 6, class: style}, set ? `${name} ${set}` : name));
    }
    drawn.components.get(component.number).group.append(names);
  }
}

function fit() {
  const {picture} = view, {svg: place} = sizes;
  const width = Math.max(picture.width, place.width / 2.2, 1), height = Math.max(picture.height, place.height / 2.2, 1);
  setBox({x: (picture.width - width) / 2, y: (picture.height - height) / 2, width, height}, true);
}

const LEAST_LETTER = 6, LETTER_SIZE = 11;
function isTooSmall() {
  if (all.components.length <= GROUPED_FROM) return false;
  if (nodesOfWhole() > MANY) return true;
  showOnly(all.components, all.channels);
  const {width, height} = layout(net, view.folded, isStubbedNow(), new Map());
  return Math.min(sizes.svg.width / width, sizes.svg.height / height) * LETTER_SIZE < LEAST_LETTER;
}

function nodesOfWhole() {
  const boxes = new Set();
  let alone = 0;
  for (const component of all.components) {
    const box = boxOf(component, view.folded);
    if (box) boxes.add(box); else alone++;
  }
  return alone + boxes.size;
}

function pictureFile() {
  const copy = $('svg').cloneNode(true), {x, y, width, height} = seenOf(view.box), {theme} = document.documentElement.dataset;
  copy.setAttribute('width', sizes.svg.width);
  copy.setAttribute('height', sizes.svg.height);
  if (theme) copy.setAttribute('data-theme', theme);
  const ground = svg('rect', {x, y, width, height, style: 'fill: var(--ground)'});
  copy.prepend(svg('style', {}, document.querySelector('style').textContent), ground);
  return new XMLSerializer().serializeToString(copy);
}

const pixel = (place, box) => Math.max(box.width / place.width, box.height / place.height);
function pointAt(clientX, clientY) {
  const {box} = view, place = $('svg').getBoundingClientRect(), size = pixel(place, box);
  return {x: box.x + box.width / 2 + (clientX - place.left - place.width / 2) * size,
    y: box.y + box.height / 2 + (clientY - place.top - place.height / 2) * size};
}

function zoom(factor, point) {
  const {x, y, width, height} = view.box, {x: px, y: py} = point || {x: x + width / 2, y: y + height / 2};
  setBox({x: px - (px - x) * factor, y: py - (py - y) * factor, width: width * factor, height: height * factor});
}

function follow() {
  const mover = moverAt(view.line);
  if (!mover) return;
  bringIntoSight(nodeOfComponent(mover), false);
}

function nodeOfComponent(number) {
  const path = `${net.components[number].path}/`, isIn = box => Boolean(box) && path.startsWith(`${box}/`);
  return view.picture.nodes.find(({component, box}) => (component ? component.number === number : isIn(box)));
}
function nodeOfSelected(selected) {
  const number = numberOf(selected);
  if (selected[0] === 'c') return nodeOfComponent(number);
  const [end] = endsBeside(selected);
  return view.picture.nodes.find(({port}) => port && port.number === number) || end && nodeOfComponent(end);
}

function bringIntoSight(node, isToBeRead) {
  const {box} = view, isFar = isToBeRead && sizes.svg.width / box.width < FAR_SCALE, {width, height} = isFar ? sizes.svg : box;
  const isIn = (at, from, size) => at > from + 0.08 * size && at < from + 0.92 * size;
  if (!node || !isFar && isIn(node.x, box.x, box.width) && isIn(node.y, box.y, box.height)) return;
  setBox({x: node.x - width / 2, y: node.y - height / 2, width, height});
}

const ROW_HEIGHT = 18;

function lineRow(line, text, style) {
  const row = html('div', `row${style}`);
  row.append(html('span', 'line', String(line)), html('span', '', text));
  row.dataset.line = line;
  return row;
}

function lineStyle(line) {
  const what = trace.what[line], isHost = !trace.component[line] && trace.channel[line] > 0;
  return (line === view.line ? ' now' : '') + (what === REST ? ' rest' : '') + (isHost ? ' host' : '')
    + (what === CLASH || isRefused(line) ? ' bad' : '');
}

const firstRow = (rows, least) => Math.max(least, Math.min(view.line - (rows >> 1), trace.count - rows + 1));

function showJournal() {
  const lines = linesShown(Math.max(5, Math.floor(sizes.journal.height / ROW_HEIGHT))), {isInWords, only} = view;
  $('journal').replaceChildren(...lines.map(line => {
    const [text, other] = isInWords ? [tellShortly(line), lineText(trace, line)] : [lineText(trace, line), tell(line)];
    const row = lineRow(line, text, lineStyle(line) + (isOfSelected(line) ? ' mine' : ''));
    row.title = other;
    return row;
  }));
  $('journal').classList.toggle('words', isInWords);
  $('words').classList.toggle('on', isInWords);
  $('only').textContent = {host: 'host only', mine: 'selected only', found: 'found only'}[only] || 'all lines';
  $('only').classList.toggle('on', only !== '');
}

function listedLines() {
  const {only, selected} = view;
  if (only === 'host') return [[trace.hostLines], 0];
  if (only === 'mine' && selected) return selectedLines();
  return only === 'found' && search.hits ? [[search.hits], 0] : null;
}

function linesShown(rows) {
  const listed = listedLines(), [lines, key] = listed || [[], 0];
  const count = listed ? countOf(lines, key) : trace.count, seen = listed ? countTo(lines, key, view.line) : view.line;
  const first = Math.max(0, Math.min(seen - 1 - (rows >> 1), count - rows));
  return Array.from({length: Math.min(rows, count - first)}, (_, i) => (listed ? nthOf(lines, key, first + i) : first + i + 1));
}

function stepInList(by) {
  const listed = listedLines();
  if (!listed) return go(view.line + by, true);
  const [lines, key] = listed, seen = countTo(lines, key, view.line), isHere = nthOf(lines, key, seen - 1) === view.line;
  const wanted = seen - 1 + by + (by < 0 && !isHere ? 1 : 0);
  return go(nthOf(lines, key, Math.max(0, Math.min(countOf(lines, key) - 1, wanted))) || view.line, true);
}

function isOfSelected(line) {
  if (!view.selected) return false;
  const number = numberOf(view.selected), channel = trace.channel[line];
  if (view.selected[0] === 'k') return channel === number;
  return trace.component[line] === number || channel > 0 && net.components[number].channels.includes(channel, 1);
}


const MOST_PORTS = 40, BEFORE = 6, HISTORY = 12;

const selectedLines = () => [view.selected[0] === 'c' ? trace.linesOfComponent : trace.linesOfChannel, numberOf(view.selected)];

function showDetails() {
  const {selected} = view;
  document.body.classList.toggle('chosen', selected !== null);
  document.body.classList.toggle('told', selected === null && (isStuckBehind(net, view.line) || isEndTold()));
  const hint = html('div', 'hint', 'Click a component or a channel to see its history.');
  if (!selected) return $('details').replaceChildren(hint, ...stuckDetails(), ...endDetails());
  const shown = selected[0] === 'c' ? componentDetails(numberOf(selected)) : channelDetails(numberOf(selected));
  return $('details').replaceChildren(...shown, eventButtons(), history(), ...stuckDetails());
}

function stuckDetails() {
  const {line, first, members, ring} = net.stuck;
  if (!isStuckBehind(net, view.line)) return [];
  const title = html('div', 'title stuck', `Since line ${line}, ${counted(first, 'component')} can never move again`);
  title.dataset.line = line;
  const now = added.isLive ? 'Now' : 'At the end', round = ring.size ? `, and ${ring.size} of them wait for one another` : '';
  const told = `Whatever the host does. ${now} it is ${members.size} of ${all.components.length}${round}.`;
  return [title, html('div', 'under', told), ...[...ring].map(([number, text]) => {
    const isNow = isStill(net, trace, number, view.line);
    const row = html('div', 'wait ring', isNow ? text : `${text} (from line ${lastMoveOf(trace, number)} on)`);
    row.classList.toggle('cycle', isNow);
    row.dataset.select = `c${number}`;
    return row;
  })];
}

function isEndTold() {
  let last = trace.count;
  while (last > 1 && trace.what[last] >= REST) last--;
  return net.end.length > 0 && view.line >= last;
}

function endDetails() {
  if (!isEndTold()) return [];
  const shown = [html('div', 'title end', `Who waits for whom ${added.isLive ? 'now' : 'at the end'}`)];
  for (const line of net.end) {
    const names = /^(?:wait|or|ended) \S+ (\d+)/.exec(line), isCycle = /^(circle|cycle)/.test(line);
    const row = html('div', isCycle ? 'wait cycle' : 'wait', line.replace(/ +/g, ' '));
    if (names && net.components[Number(names[1])]) row.dataset.select = `c${names[1]}`;
    shown.push(row);
  }
  return shown;
}

function phaseText(number) {
  const change = lastChange(trace, number, view.line), value = valueAfter(trace, change);
  return {change, phase: PHASES[phaseAfter(trace, change)], text: PHASES[phaseAfter(trace, change)] + (value ? ` ${value}` : '')};
}

function componentDetails(number) {
  const component = net.components[number], more = component.channels.length - 1 - MOST_PORTS;
  const shown = [html('div', 'title', component.title), html('div', 'under', placeOf(component))];
  if (isStill(net, trace, number, view.line)) shown.push(html('div', 'under stuck', 'never moves again'));
  if (component.isVariable) shown.push(html('div', 'under', `holds ${heldBy(trace, component, view.line)}`));
  const ports = html('div', 'ports');
  for (let p = 1; p < component.channels.length && p <= MOST_PORTS; p++) ports.append(portRow(component, p));
  shown.push(ports);
  if (more > 0) shown.push(html('div', 'under', `and ${counted(more, 'more port')}`));
  const callers = callersOf(net, trace, component, view.line).slice(1);
  const nameOf = caller => (typeof caller === 'number' ? componentName(net.components[caller]) : `the host at ${caller}`);
  const names = callers.map(nameOf);
  if (names.length) shown.push(callerRow(callers, names));
  return shown;
}

function callerRow(callers, names) {
  const row = html('div', 'under callers', `called by ${names.join(' ‹ ')}`);
  if (typeof callers[0] === 'number') row.dataset.select = `c${callers[0]}`;
  return row;
}

function portRow(component, p) {
  const {isPassive, name, set} = component.ports[p] || {isPassive: false, name: `port ${p}`}, number = component.channels[p];
  const {phase, text} = phaseText(number), row = html('div', `port ${phase}`), channel = net.channels[number];
  row.append(html('span', `end ${isPassive ? 'passive' : 'active'}`), html('span', '', set ? `${name} ${set}` : name));
  row.append(html('span', 'channel', channelName(channel)), html('span', 'phase', text));
  row.dataset.select = `k${number}`;
  return row;
}

function channelDetails(number) {
  const channel = net.channels[number], port = channel.port ? `, port ${channel.port}` : '';
  const {change, phase, text} = phaseText(number);
  const ports = html('div', 'ports'), row = html('div', `port ${phase}`);
  row.append(html('span', 'phase', text + (change ? `, since line ${change}` : '')));
  ports.append(row);
  const title = `${channelName(channel)} ${kindOf(channel)}${port}`;
  const ended = `${counted(endedOn([number]), 'handshake')} ended, of ${countOf(trace.changesOf, number) >> 2}`;
  const under = [endsOf(channel), placeOf(channel), ended].map(text => html('div', 'under', text));
  return [html('div', 'title', title), ...under, ports];
}

function eventButtons() {
  const [lines, key] = selectedLines(), row = html('div', 'events');
  for (const [text, direction] of [['◂ previous event', -1], ['next event ▸', 1]]) {
    const button = html('button', '', text), line = eventLine(direction);
    button.title = direction > 0 ? ']' : '[';
    button.disabled = !line;
    button.onclick = () => go(line);
    row.append(button);
  }
  const leave = html('button', 'leave', '×');
  leave.title = 'nothing selected (Esc)';
  leave.onclick = () => select(null);
  row.append(html('span', 'under', `${countTo(lines, key, view.line)} of ${countOf(lines, key)}`), leave);
  return row;
}

function history() {
  const [lines, key] = selectedLines(), list = html('div', 'history');
  const first = Math.max(0, countTo(lines, key, view.line) - BEFORE);
  for (let i = first; i < Math.min(countOf(lines, key), first + HISTORY); i++) {
    const line = nthOf(lines, key, i), text = tell(line);
    const style = line === view.line ? ' now' : line > view.line ? ' later' : '';
    const own = view.selected[0] === 'c' ? componentName(net.components[key]) : '';
    const row = lineRow(line, own && text.startsWith(`${own} `) ? text.slice(own.length + 1) : text, style);
    row.title = text;
    list.append(row);
  }
  return list;
}

function eventLine(direction) {
  const {hostLines} = trace, ofHosts = [[hostLines], 0];
  const [lines, key] = view.selected ? selectedLines() : ofHosts;
  const seen = countTo(lines, key, view.line), isHere = nthOf(lines, key, seen - 1) === view.line;
  return nthOf(lines, key, direction > 0 ? seen : seen - (isHere ? 2 : 1));
}


const STRIP_HEIGHT = 22;
const strip = {key: ''};
let clashLines = [];

function showStrip() {
  const canvas = $('strip'), width = Math.round(sizes.strip.width), ratio = window.devicePixelRatio || 1;
  const {theme} = document.documentElement.dataset;
  const key = [width, ratio, view.selected, search.text, theme].join();
  if (!width || strip.key === key) return;
  strip.key = key;
  canvas.width = width * ratio;
  canvas.height = STRIP_HEIGHT * ratio;
  const pen = canvas.getContext('2d'), colours = getComputedStyle(document.documentElement);
  pen.scale(ratio, ratio);
  const placeOfLine = line => (trace.count < 2 ? 0 : Math.round((line - 1) / (trace.count - 1) * (width - 1)));
  const marks = (lines, from, to, top, bottom, colour) => {
    pen.fillStyle = colours.getPropertyValue(colour).trim();
    for (let i = from, last = -1; i < to; i++) {
      const x = placeOfLine(lines[i]);
      if (x !== last) pen.fillRect(x, top, 1.5, bottom - top);
      last = x;
    }
  };
  marks(trace.rests, 0, trace.rests.length, 0, STRIP_HEIGHT, '--rest');
  marks(trace.hostLines, 0, trace.hostLines.length, 0, 8, '--ink');
  marks(clashLines, 0, clashLines.length, 0, STRIP_HEIGHT, '--clash');
  if (view.selected) {
    const [lines, number] = selectedLines();
    marks(linesOf(lines, number), 0, countOf(lines, number), 9, 15, '--selected');
  }
  if (search.hits) marks(search.hits, 0, search.hits.length, 16, STRIP_HEIGHT, '--found');
  if (net.stuck.line) {
    marks([net.stuck.line], 0, 1, 0, STRIP_HEIGHT, '--clash');
    pen.fillRect(placeOfLine(net.stuck.line) - 5, 0, 11, 7);
  }
}


const MOST_HITS = 200000, MOST_NAMES = 12;
const search = {text: '', hits: null, chosen: -1, timer: 0};
const countedHits = count => (count === MOST_HITS ? `${count}+ lines` : counted(count, 'line'));

function find(text) {
  Object.assign(search, {text, hits: text === '' ? null : linesWith(text), chosen: -1});
  $('count').textContent = text === '' ? '' : countedHits(search.hits.length);
  $('found').replaceChildren(...(text === '' ? [] : namesWith(text.toLowerCase()).map(([select, name]) => {
    const row = html('div', 'name', name);
    row.dataset.select = select;
    return row;
  })));
  showStrip();
  writeLink();
}

function chooseName(by) {
  const names = $('found').children;
  search.chosen = Math.max(-1, Math.min(names.length - 1, search.chosen + by));
  [...names].forEach((row, i) => row.classList.toggle('chosen', i === search.chosen));
}

function linesWith(text) {
  const hits = [];
  for (let at = trace.text.indexOf(text); at >= 0 && hits.length < MOST_HITS;) {
    const line = countIn(trace.start, 1, trace.count + 1, at);
    hits.push(line);
    if (line === trace.count) break;
    at = trace.text.indexOf(text, trace.start[line + 1]);
  }
  return hits;
}

function namesWith(text) {
  const names = [], holds = words => words.some(word => word && word.toLowerCase().includes(text));
  const number = /^(?:ch|channel|k) ?(\d+)$/.exec(text);
  if (number && net.channels[Number(number[1])]) names.push([`k${number[1]}`, channelName(net.channels[Number(number[1])])]);
  const [, kind, of] = /^([a-z]\w*?) ?(\d+)$/.exec(text) || [], named = net.components[Number(of)];
  if (named && (kind === 'c' || named.kind.toLowerCase() === kind)) names.push([`c${of}`, named.title]);
  for (const port of net.ports) if (port && names.length < MOST_NAMES && holds([port.name]))
    names.push([`k${port.number}`, `port ${port.name}`]);
  const most = names.length + MOST_NAMES;
  for (const component of all.components) {
    if (names.length >= most) break;
    const {title, source} = component, path = net.isGrouped ? '' : component.path;
    const part = path ? net.instances.get(path).name : '';
    const told = [path && ` in ${path} ${part}`, source && ` (${source})`].filter(it => it).join('');
    if (holds([title, source, path && `${path} ${part}`])) names.push([`c${component.number}`, title + told]);
  }
  for (const channel of all.channels) {
    if (names.length >= most + MOST_NAMES) break;
    const {name, source} = channel;
    if (holds([name, source])) names.push([`k${channel.number}`, channelName(channel) + (source ? ` (${source})` : '')]);
  }
  return names;
}

function goToHit(direction) {
  const {hits} = search;
  if (!hits || hits.length === 0) return;
  const seen = countIn(hits, 0, hits.length, view.line), isHere = hits[seen - 1] === view.line;
  go(direction > 0 ? hits[seen] || hits[0] : hits[seen - (isHere ? 2 : 1)] || hits[hits.length - 1]);
}


const CHART = {row: 15, left: 178, top: 34, widest: 110, named: 58, least: 24, label: 40};

function chartPlan(width, height) {
  let rows = Math.max(9, Math.floor((height - CHART.top - 16) / CHART.row));
  for (;; rows -= 2) {
    const first = firstRow(rows, 2), last = Math.min(trace.count, first + rows - 1), keys = new Set();
    for (let line = first; line <= last; line++) {
      const channel = net.channels[trace.channel[line]];
      if (channel) for (const end of [channel.active, channel.passive]) if (end) keys.add(lifelineOf(channel, end));
    }
    const room = (width - CHART.left - 12) / Math.max(1, keys.size);
    if (room < CHART.least && rows > 9) continue;
    const column = Math.max(CHART.least, Math.min(CHART.widest, room)), order = [...keys].sort((a, b) => rankOf(a) - rankOf(b));
    const places = new Map(order.map((key, i) => [key, CHART.left + column * (i + 0.5)]));
    const y = line => CHART.top + CHART.row * (Math.max(first - 0.7, Math.min(last + 0.9, line)) - first + 0.5);
    return {first, last, column, places, y, width: CHART.left + column * order.length + 10, height: y(last) + CHART.row};
  }
}

const lifelineOf = (channel, end) => (end === 'host' ? `p${channel.number}` : `c${end.component}`);
function rankOf(lifeline) {
  const number = numberOf(lifeline);
  if (lifeline[0] === 'c') return 1e6 + number;
  return net.channels[number].isHostCaller ? number : 1e12 + number;
}

function showChart() {
  const plan = chartPlan(Math.floor(sizes.chart.width), Math.floor(sizes.chart.height));
  const picture = svg('svg', {width: plan.width, height: plan.height});
  picture.append(...chartRows(plan), ...chartHeads(plan));
  const bars = svg('g'), strokes = [];
  for (const number of chartChannels(plan)) chartChannel(plan, net.channels[number], bars, strokes);
  picture.append(bars, drawStrokes(plan, strokes));
  $('chart').replaceChildren(picture);
}

function chartRows({first, last, y, width}) {
  const rows = [];
  for (let line = first; line <= last; line++) {
    const row = svg('g', {class: `row${lineStyle(line)}`, 'data-line': line});
    row.append(svg('rect', {x: 0, y: y(line) - CHART.row / 2, width, height: CHART.row}));
    row.append(svg('text', {x: 36, y: y(line) + 4, class: 'line'}, String(line)));
    row.append(svg('text', {x: 44, y: y(line) + 4}, cut(lineText(trace, line), 22)));
    rows.push(row);
  }
  return rows;
}

function chartHeads({last, column, places, y}) {
  const heads = [];
  [...places].forEach(([key, x], i) => {
    const number = numberOf(key), component = key[0] === 'c' ? net.components[number] : null, isNarrow = column < CHART.named;
    heads.push(svg('line', {class: 'lifeline', x1: x, x2: x, y1: CHART.top - 4, y2: y(last) + CHART.row / 2}));
    const head = svg('g', {class: 'head', 'data-select': component ? key : `k${number}`});
    const name = component ? String(number) : cut(net.channels[number].port, isNarrow ? 6 : 14);
    head.append(svg('text', {x, y: isNarrow && i % 2 ? 24 : 12}, name));
    const room = Math.floor(column / 5.6);
    if (component && !isNarrow) head.append(svg('text', {class: 'kind', x, y: 24}, cut(headOf(component), room)));
    head.append(svg('title', {}, component ? componentTitle(component) : channelTitle(net.channels[number])));
    heads.push(head);
  });
  return heads;
}

function headOf(component) {
  const isTelling = component.isVariable || isOperation(component.detail.split(' ')[0]);
  return isTelling && component.detail ? component.detail : component.kind;
}

function chartChannels({first, last, places}) {
  const channels = new Set();
  for (let line = first; line <= last; line++) if (trace.channel[line]) channels.add(trace.channel[line]);
  for (const key of places.keys()) if (key[0] === 'c') {
    const component = net.components[numberOf(key)];
    for (const p of component.passive) channels.add(component.channels[p]);
  }
  return channels;
}

function chartChannel({first, last, places, y}, channel, bars, strokes) {
  const lines = trace.changesOf, key = channel.number;
  const [active, passive] = [channel.active, channel.passive].map(end => end && places.get(lifelineOf(channel, end)));
  for (let i = Math.max(0, countTo(lines, key, first - 1) - 1), line; (line = nthOf(lines, key, i)) && line <= last; i++) {
    const next = nthOf(lines, key, i + 1) || Infinity, what = trace.what[line];
    if (next < first) continue;
    if (what === TAKE && passive) {
      const height = Math.max(2, y(next) - y(line));
      bars.append(svg('rect', {class: 'bar', x: passive - 4, width: 8, y: y(line), height}));
    }
    if ((what === ASK || what === REPLY) && active && passive) {
      const isAsk = what === ASK, isThick = channel.kind === (isAsk ? 'push' : 'pull');
      strokes.push({channel, line, next, isAsk, isThick, from: isAsk ? active : passive, to: isAsk ? passive : active});
    }
  }
}

function drawStrokes({first, last, y, column}, strokes) {
  const group = svg('g'), lanes = new Map();
  for (const {channel, line, next, isAsk, isThick, from, to} of strokes.sort((a, b) => a.line - b.line)) {
    const sign = Math.sign(to - from) || 1, key = `${to} ${sign}`, isOpen = next > last;
    const isSelected = view.selected === `k${channel.number}`;
    if (!lanes.has(key)) lanes.set(key, []);
    const busy = lanes.get(key), free = busy.findIndex(until => until <= line), lane = free < 0 ? busy.length : free;
    busy[lane] = next;
    const wait = to - sign * (7 + Math.min(5, column / 12) * lane);
    const style = (isAsk ? 'asks' : 'replies') + (isThick ? ` ${channel.kind}` : '');
    const stroke = svg('g', {class: `stroke ${style}${isSelected ? ' selected' : ''}`, 'data-select': `k${channel.number}`});
    const way = `M${from + sign * 4} ${y(line)}L${wait} ${y(line)}L${wait} ${y(next)}`;
    stroke.append(svg('path', {d: isOpen ? way : `${way}L${to - sign * 4} ${y(next)}`}));
    if (!isOpen) stroke.append(svg('path', {class: 'tip', d: `M${to - sign * 3} ${y(next)}l${-sign * 7} -3.5l0 7z`}));
    const isTold = line >= first && (column >= CHART.label || isSelected || line === view.line), value = valueAfter(trace, line);
    if (isTold) {
      const text = channel.number + (value ? ` = ${cut(value, 9)}` : '');
      stroke.append(svg('text', {x: from + sign * 8, y: y(line) - 2, class: sign > 0 ? 'starts' : 'ends'}, text));
    }
    group.append(stroke);
  }
  return group;
}

const STREAM = {row: 19, left: 132, top: 20, letter: 6.4, least: 20};

const streams = {from: 1, to: 0, pinned: [], line: 0, key: '', picture: null, now: null};
const MOST_PINNED = 24;
const lastStreamed = () => (streams.to ? Math.min(streams.to, trace.count) : trace.count);

function streamRows(room) {
  const ports = net.ports.filter(port => port).map(port => `k${port.number}`), {pinned} = streams;
  const variables = all.components.filter(component => component.isVariable).map(component => `c${component.number}`);
  const others = ports.filter(row => !pinned.includes(row)).slice(0, Math.max(1, room - pinned.length));
  return [...new Set([...others, ...pinned, ...variables])].slice(0, room);
}

function streamName(row) {
  const number = numberOf(row);
  if (row[0] === 'k') return net.channels[number].port || channelName(net.channels[number]).replace('channel ', '');
  const component = net.components[number];
  return component.isVariable && component.detail ? component.detail.split(' ')[0] : component.title;
}

function streamLines(row) {
  const number = numberOf(row);
  const at = (lines, key) => ({countTo: line => countTo(lines, key, line), nth: i => nthOf(lines, key, i)});
  if (row[0] === 'k') return at(trace.changesOf, number);
  const component = net.components[number];
  if (!component.isVariable) return at(trace.linesOfComponent, number);
  const moves = at(trace.changesOf, component.channels[1]);
  return {countTo: line => (moves.countTo(line) + 2) >> 2, nth: i => (i < 0 ? 0 : moves.nth(4 * i + 1))};
}

function streamState(row, line) {
  const number = numberOf(row);
  if (row[0] === 'k') {
    const phase = phaseAfter(trace, line), isTaken = phase === TAKEN && net.channels[number].kind === 'push';
    return {style: PHASES[phase], text: isTaken ? valueIn(trace, line) : valueAfter(trace, line)};
  }
  const component = net.components[number];
  if (component.isVariable) return {style: 'held', text: line ? valueIn(trace, line) : '0'};
  const isBusy = component.passive.some(p => phaseAfter(trace, lastChange(trace, component.channels[p], line)) === TAKEN);
  return {style: isBusy ? 'taken' : 'idle', text: ''};
}

function streamPieces(row, from, to, width) {
  const lines = streamLines(row), wide = width / (to - from + 1), pieces = [];
  let line = from, index = lines.countTo(from) - 1;
  while (line <= to) {
    const next = lines.nth(index + 1), isLast = !next || next > to, end = isLast ? to + 1 : next;
    if (isLast || (end - line) * wide >= 1) {
      pieces.push({first: line, end, ...streamState(row, lines.nth(index))});
      line = end;
      index++;
    } else {
      index = lines.countTo(Math.min(to, Math.floor(line + 1 / wide))) - 1;
      pieces.push({first: line, end: lines.nth(index), style: 'many', text: ''});
      line = lines.nth(index);
    }
  }
  return joined(pieces);
}

function joined(pieces) {
  const shown = [];
  for (const piece of pieces) {
    const last = shown[shown.length - 1];
    if (last && last.style === piece.style && last.text === piece.text) last.end = piece.end; else shown.push(piece);
  }
  return shown;
}

function streamText(pieces, i, at) {
  const {first, end, text} = pieces[i], room = at(end) - at(first), size = text.length * STREAM.letter + 5, next = pieces[i + 1];
  if (!text) return null;
  if (room >= size) return {x: at(first) + 3, isIn: true, text};
  const quiet = next && next.style === 'replied' && !next.text ? pieces[i + 2] : next;
  if (quiet && quiet.style === 'idle' && at(quiet.end) - at(end) >= size) return {x: at(quiet.first) + 2, isIn: false, text};
  const fits = Math.floor((room - 4) / STREAM.letter);
  return fits >= 3 ? {x: at(first) + 3, isIn: true, text: cut(text, fits)} : null;
}

function streamPlan() {
  const {width, height} = sizes.chart, left = Math.min(STREAM.left, Math.round(width * 0.3)), to = lastStreamed();
  const wide = Math.max(50, Math.floor(width) - left - 12), from = Math.max(1, Math.min(streams.from, to));
  const rows = streamRows(Math.max(1, Math.floor((height - STREAM.top - 4) / STREAM.row)));
  return {from, to, left, wide, rows, at: line => left + (line - from) / (to - from + 1) * wide};
}

function followStreams() {
  const to = lastStreamed(), size = to - streams.from, {line} = view, isAnother = streams.line !== line;
  streams.line = line;
  if (!isAnother || line >= streams.from && line <= to) return;
  setStreams(line < streams.from ? line - size / 4 : line - size * 3 / 4, size);
}

function setStreams(from, size) {
  const most = trace.count - 1, wanted = Math.max(Math.min(STREAM.least, most), Math.min(most, Math.round(size)));
  streams.from = Math.max(1, Math.min(trace.count - wanted, Math.round(from)));
  streams.to = wanted === most ? 0 : streams.from + wanted;
}

function showStreams() {
  followStreams();
  const plan = streamPlan(), key = [plan.from, plan.to, plan.wide, ...plan.rows, view.selected].join();
  if (streams.key !== key || !$('chart').contains(streams.picture)) drawStreams(plan);
  streams.key = key;
  const x = plan.at(view.line + 0.5);
  for (const name of ['x1', 'x2']) streams.now.setAttribute(name, x.toFixed(1));
}

function drawStreams(plan) {
  const {from, to, rows, at, left, wide} = plan, bottom = STREAM.top + rows.length * STREAM.row;
  const picture = svg('svg', {width: left + wide + 10, height: bottom + 2, class: 'streams'});
  for (const line of restsApart(plan)) {
    const x = at(line).toFixed(1);
    picture.append(svg('line', {class: 'rest', x1: x, x2: x, y1: STREAM.top - 6, y2: bottom}));
  }
  rows.forEach((row, i) => picture.append(streamRow(plan, row, STREAM.top + i * STREAM.row)));
  const ticks = wide < 400 ? 2 : 5;
  for (let i = 0; i <= ticks; i++) {
    const line = Math.round(from + (to - from) * i / ticks);
    picture.append(svg('text', {class: i === ticks ? 'tick ends' : 'tick', x: at(line).toFixed(1), y: 11}, String(line)));
  }
  const now = svg('line', {class: 'now', y1: 2, y2: bottom});
  picture.append(now);
  Object.assign(streams, {picture, now});
  $('chart').replaceChildren(picture);
}

function restsApart({from, to, wide}) {
  const {rests} = trace, found = [], step = (to - from + 1) / wide;
  for (let line = from - 1; line < to;) {
    const next = rests[countIn(rests, 0, rests.length, line)];
    if (!next || next > to) break;
    found.push(next);
    line = Math.max(next, Math.floor(next + step) - 1);
  }
  return found;
}

function streamRow({from, to, wide, left, at}, row, y) {
  const group = svg('g', {class: `stream${view.selected === row ? ' selected' : ''}`, 'data-row': row});
  const pieces = streamPieces(row, from, to, wide), name = cut(streamName(row), Math.floor(left / 7));
  group.append(svg('text', {class: 'name', x: left - 8, y: y + 13, 'data-select': row}, name));
  pieces.forEach((piece, i) => {
    const isBus = piece.text !== '' || piece.style === 'held', told = streamText(pieces, i, at), x = at(piece.first);
    const [top, height] = piece.style === 'idle' ? [y + 9, 1.5] : isBus ? [y + 2, 14] : [y + 5, 8];
    const width = Math.max(0.8, at(piece.end) - x - (isBus ? 1 : 0));
    group.append(svg('rect', {class: piece.style, x: x.toFixed(1), y: top, width: width.toFixed(1), height}));
    const style = told && (told.isIn ? piece.style : 'beside');
    if (told) group.append(svg('text', {class: `told ${style}`, x: told.x.toFixed(1), y: y + 13}, told.text));
  });
  return group;
}

function streamLineAt(clientX) {
  const {from, to, left, wide} = streamPlan(), x = clientX - $('chart').getBoundingClientRect().left - left;
  return Math.max(from, Math.min(to, from + Math.floor(x / wide * (to - from + 1))));
}

function turnStreams(event) {
  const {from, to} = streamPlan(), size = to - from, at = streamLineAt(event.clientX), turn = event.deltaY || event.deltaX;
  if (event.shiftKey) setStreams(from + Math.sign(turn) * Math.max(1, size / 10), size);
  else {
    const wanted = Math.min(trace.count - 1, Math.max(STREAM.least, size * Math.exp(turn * 0.002)));
    setStreams(at - (at - from) / Math.max(1, size) * wanted, wanted);
  }
  showStreams();
  writeLink();
}

function dragStreams(before, after) {
  const {from, to, left, wide} = streamPlan(), edge = $('chart').getBoundingClientRect().left + left, [x, y] = after;
  const lineAt = at => from + (at - edge) / wide * (to - from + 1), [a, b] = before.map(lineAt);
  const count = y === undefined ? to - from + 1 : (b - a) * wide / (y - x);
  if (count > 0) setStreams(a - (x - edge) / wide * count, count - 1);
  showStreams();
  writeLink();
}

function pin() {
  const {pinned} = streams, {selected} = view;
  if (!selected) return;
  if (pinned.includes(selected)) pinned.splice(pinned.indexOf(selected), 1);
  else if (pinned.length < MOST_PINNED) pinned.push(selected);
  show();
}

function sourceOf(item) {
  const found = /^(.*):(\d+):(\d+)$/.exec(item ? item.source : '');
  return found ? {file: found[1], line: Number(found[2]), column: Number(found[3])} : null;
}

function filesOfNet() {
  net.files = net.files || [...new Set([...all.components, ...all.channels].map(it => sourceOf(it)?.file).filter(file => file))];
  return net.files;
}

const lastPart = name => name.slice(name.lastIndexOf('/') + 1);
function linesOfSource(file) {
  const {sources} = net, isAlike = name => lastPart(name) === lastPart(file);
  if (sources.has(file)) return sources.get(file);
  const alike = [...sources.keys()].filter(isAlike);
  return alike.length === 1 && filesOfNet().filter(isAlike).length === 1 ? sources.get(alike[0]) : null;
}

const phaseNow = number => phaseAfter(trace, lastChange(trace, number, view.line));
const isBusyNow = component => component.passive.some(p => phaseNow(component.channels[p]) === TAKEN);

function isControlAt(component) {
  if (component.isMeeting || !isBusyNow(component)) return false;
  return component.active.every(p => {
    const {number, passive} = net.channels[component.channels[p]];
    const callee = passive && passive !== 'host' && net.components[passive.component];
    return !callee || callee.isMeeting || phaseNow(number) === IDLE || !isBusyNow(callee);
  });
}

function controlInSource() {
  const found = new Map();
  for (const component of all.components) {
    const place = component.source && isControlAt(component) ? sourceOf(component) : null;
    if (!place || !linesOfSource(place.file)) continue;
    const key = `${place.file}:${place.line}`, isRing = net.stuck.ring.has(component.number);
    const told = found.get(key) || {...place, columns: [], component: component.number, isRing: false};
    told.columns.push(place.column);
    told.isRing = told.isRing || isRing && isStill(net, trace, component.number, view.line);
    found.set(key, told);
  }
  return [...found.values()];
}

function sourceNow() {
  const isTold = item => sourceOf(item) && linesOfSource(sourceOf(item).file), {selected, line} = view;
  if (selected && isTold(thatIs(selected))) return sourceOf(thatIs(selected));
  for (let at = line; at > 1 && at > line - 500; at--) {
    const item = [net.components[trace.component[at]], net.channels[trace.channel[at]]].find(isTold);
    if (item) return sourceOf(item);
  }
  return null;
}

function sourceLines(room) {
  const now = sourceNow(), shown = new Map(), control = controlInSource().sort((a, b) => b.isRing - a.isRing);
  const isAt = (place, file, line) => Boolean(place) && place.file === file && place.line === line;
  const put = (file, line) => {
    const key = `${file}:${line}`, lines = linesOfSource(file);
    if (line < 1 || line > lines.length || shown.has(key) || shown.size >= room) return;
    const told = control.find(it => isAt(it, file, line)), isNow = isAt(now, file, line);
    const columns = [...(isNow ? [now.column] : []), ...(told ? told.columns : [])];
    shown.set(key, {file, line, text: lines[line - 1], told, columns, isNow});
  };
  for (const {file, line} of [...(now ? [now] : []), ...control]) for (const at of [line, line - 1, line + 1]) put(file, at);
  const first = filesOfNet().find(linesOfSource);
  for (let line = 1; !now && control.length === 0 && line <= room; line++) put(first, line);
  return [...shown.values()].sort((a, b) => (a.file < b.file ? -1 : a.file > b.file ? 1 : a.line - b.line));
}

function sourceRow({line, text, told, columns, isNow}) {
  const row = html('div', `row${told ? told.isRing ? ' stuck' : ' active' : ''}${isNow ? ' now' : ''}`), held = html('span');
  let at = 0;
  for (const column of [...new Set(columns)].sort((a, b) => a - b)) if (column > at && column <= text.length) {
    const end = column + /^[\x80-\xbf]*/.exec(text.slice(column))[0].length;
    held.append(utf8(text.slice(at, column - 1)), html('mark', '', utf8(text.slice(column - 1, end))));
    at = end;
  }
  held.append(utf8(text.slice(at)));
  row.append(html('span', 'line', String(line)), held);
  row.dataset.place = line;
  if (told) row.dataset.select = `c${told.component}`;
  return row;
}

function whyNoSource() {
  const files = filesOfNet();
  if (files.length === 0) return 'This netlist names no source.';
  return `This page doesn't have the source: ${cut(files.join(', '), 120)}${added.isLive ? '. Drop it here, or load it.' : ''}`;
}

function showSource() {
  const list = html('div', 'source'), isTold = filesOfNet().some(linesOfSource);
  if (!isTold) list.append(html('div', 'hint', whyNoSource()));
  let last = {file: '', line: 0};
  for (const it of isTold ? sourceLines(Math.max(6, Math.floor(sizes.chart.height / ROW_HEIGHT) - 3)) : []) {
    if (it.file !== last.file) list.append(html('div', 'file', it.file));
    else if (it.line > last.line + 1) list.append(html('div', 'gap', '·'));
    list.append(sourceRow(it));
    last = it;
  }
  $('chart').replaceChildren(list);
}

const PANELS = {chart: () => showChart(), streams: () => showStreams(), source: () => showSource()};

function show() {
  const isFar = Math.abs(view.line - view.focusLine) > REFOCUS || view.hasRing !== isStuckBehind(net, view.line);
  if (view.isFocused && isFar) drawAnew();
  markPicture();
  if (view.isCounted) markCounts();
  if (view.isFollowing) follow();
  $('says').textContent = tell(view.line) + (view.line === net.stuck.line ? ' (from here on something is stuck)' : '');
  $('position').textContent = `line ${view.line} of ${trace.count}`;
  $('scrubber').value = view.line;
  showJournal();
  showDetails();
  showStrip();
  if (view.panel) PANELS[view.panel]();
  added.afterShow();
  writeLink();
}

const places = {before: [], isSeries: false}, MOST_PLACES = 200;
function notePlace(isSeries = false) {
  if (!isSeries || !places.isSeries) places.before.push({line: view.line, selected: view.selected});
  if (places.before.length > MOST_PLACES) places.before.shift();
  places.isSeries = isSeries;
}

function goBack() {
  const place = places.before.pop();
  if (!place) return;
  view.line = Math.min(place.line, trace.count);
  setSelected(place.selected);
}

function go(line, isSeries = false) {
  const wanted = Math.max(1, Math.min(trace.count, Math.trunc(line) || 1));
  if (wanted === view.line) return;
  if (Math.abs(wanted - view.line) > 1) notePlace(isSeries);
  view.line = wanted;
  show();
}
const step = lines => go(view.line + lines);
const goTo = line => { if (line) go(line); };

function select(selected) {
  if (selected !== view.selected) notePlace();
  setSelected(selected);
}

function setSelected(selected) {
  const before = view.selected;
  view.selected = selected;
  if (view.isFocused && selected && !isDrawnWhole(selected)) drawAnew();
  markSelection(before);
  show();
}

function goToSelected(selected) {
  select(selected);
  bringIntoSight(nodeOfSelected(selected), true);
}

function redraw() {
  draw();
  fit();
  show();
}

function fold(path) {
  const folded = foldedNow();
  if (!folded.delete(path)) folded.add(path);
  redraw();
}

const limits = {drawn: 3000};
function setFocus(isFocused) {
  const count = isFocused ? 0 : nodesOfWhole();
  if (count > limits.drawn && view.warnedAt !== view.line) {
    view.warnedAt = view.line;
    $('says').textContent = `The whole has ${count} components and copies to draw, which takes a while. Once more: draw it.`;
    return;
  }
  Object.assign(view, {isFocused, warnedAt: 0});
  $('focus').classList.toggle('on', isFocused);
  redraw();
}

function setStubs(isStubbed) {
  view.isStubbed = isStubbed;
  redraw();
}

function setFollow(isFollowing) {
  view.isFollowing = isFollowing;
  $('follow').classList.toggle('on', isFollowing);
  show();
}

function setPanel(panel) {
  view.panel = panel;
  document.body.classList.toggle('charted', panel !== '');
  document.body.classList.toggle('low', panel === 'streams' || panel === 'source');
  for (const [id, name] of [['charting', 'chart'], ['streaming', 'streams'], ['sourcing', 'source']])
    $(id).classList.toggle('on', panel === name);
  measure();
  fit();
  show();
}
const togglePanel = panel => setPanel(view.panel === panel ? '' : panel);

function setOnly() {
  const kinds = ['', 'host', ...(view.selected ? ['mine'] : []), ...(search.hits ? ['found'] : [])];
  view.only = kinds[(kinds.indexOf(view.only) + 1) % kinds.length];
  show();
}

function setWords(isInWords) {
  view.isInWords = isInWords;
  show();
}

function setCounts(isCounted) {
  view.isCounted = isCounted;
  $('counting').classList.toggle('on', isCounted);
  markCounts();
  show();
}

function save(name, text, type = 'text/plain') {
  const it = html('a');
  it.href = URL.createObjectURL(new Blob([text], {type}));
  it.download = name;
  it.click();
  setTimeout(() => URL.revokeObjectURL(it.href), 10000);
  added.saved = {name, text};
}
const savePicture = () => save(`${net.part}-${view.line}.svg`, pictureFile(), 'image/svg+xml');

function setTheme(theme) {
  if (theme) document.documentElement.dataset.theme = theme;
  else delete document.documentElement.dataset.theme;
  showStrip();
  writeLink();
}

function otherTheme() {
  const isDark = window.matchMedia('(prefers-color-scheme: dark)').matches;
  const now = document.documentElement.dataset.theme || (isDark ? 'dark' : 'light');
  setTheme(now === 'dark' ? 'light' : 'dark');
}

const toggleHelp = isShown => $('help').classList.toggle('on', isShown);

function escape() {
  if ($('help').classList.contains('on')) toggleHelp(false);
  else select(null);
}


const SPEEDS = [1, 2, 5, 10, 25, 100, 1000], PICTURES = 50;
const player = {timer: 0, speed: 3};

function play(isPlaying) {
  clearInterval(player.timer);
  const speed = SPEEDS[player.speed], lines = Math.max(1, Math.round(speed / PICTURES));
  const next = () => {
    go(view.line + lines, true);
    if (view.line >= trace.count) play(false);
  };
  player.timer = isPlaying && view.line < trace.count ? setInterval(next, 1000 * lines / speed) : 0;
  $('says').setAttribute('aria-live', player.timer ? 'off' : 'polite');
  $('play').textContent = player.timer ? 'pause' : 'play';
  $('speed').textContent = `${speed}/s`;
}
const togglePlay = () => play(!player.timer);

function changeSpeed(by) {
  player.speed = Math.max(0, Math.min(SPEEDS.length - 1, player.speed + by));
  play(Boolean(player.timer));
}


const link = {timer: 0};

const foldedAtFirst = () => (view.isFocused ? [] : view.foldedAtFirst);

function writeLink() {
  if (added.isLive) return;
  const parts = [`line=${view.line}`], folded = [...foldedNow()].join(), {theme} = document.documentElement.dataset;
  if (view.selected) parts.push(`at=${view.selected}`);
  if (view.panel) parts.push(`view=${view.panel}`);
  if (view.isFocused !== isLarge) parts.push(`focus=${Number(view.isFocused)}`);
  if (search.text) parts.push(`find=${encodeURIComponent(search.text)}`);
  parts.push(...membersOfPanels());
  if (folded !== foldedAtFirst().join()) parts.push(`fold=${folded}`);
  if (view.isStubbed !== null) parts.push(`stubs=${Number(view.isStubbed)}`);
  if (theme) parts.push(`theme=${theme}`);
  const hash = `#${parts.join('&')}`;
  clearTimeout(link.timer);
  link.timer = setTimeout(() => {
    if (window.location.hash !== hash) window.history.replaceState(null, '', hash);
  }, 120);
}

function membersOfPanels() {
  const {pinned, from, to} = streams, parts = [];
  if (view.only) parts.push(`only=${view.only}`);
  if (view.isInWords) parts.push('words=1');
  if (view.isCounted) parts.push('counts=1');
  if (pinned.length) parts.push(`pin=${pinned.join()}`);
  if (to) parts.push(`from=${from}`, `to=${to}`);
  return parts;
}
function readMembersOfPanels(said) {
  const only = said.get('only'), [from, to] = ['from', 'to'].map(name => Math.trunc(Number(said.get(name))) || 0);
  view.only = ['host', 'mine', 'found'].includes(only) ? only : '';
  view.isInWords = said.get('words') === '1';
  view.isCounted = said.get('counts') === '1';
  $('counting').classList.toggle('on', view.isCounted);
  streams.pinned = [...new Set((said.get('pin') || '').split(',').filter(isThere))].slice(0, MOST_PINNED);
  Object.assign(streams, {from: 1, to: 0, line: view.line});
  if (from >= 1 && to > from && to <= trace.count) setStreams(from, to - from);
}

const thatIs = selected => (selected[0] === 'c' ? net.components : net.channels)[numberOf(selected)];
const isThere = selected => /^[ck][0-9]+$/.test(selected) && Boolean(thatIs(selected));

function readLink(address) {
  const said = new URLSearchParams(new URL(address).hash.slice(1)), at = said.get('at');
  view.line = Math.max(1, Math.min(trace.count, Math.trunc(Number(said.get('line'))) || 1));
  view.selected = at && isThere(at) ? at : null;
  view.isFocused = said.has('focus') ? said.get('focus') === '1' : isLarge;
  view.isStubbed = said.has('stubs') ? said.get('stubs') === '1' : null;
  view[view.isFocused ? 'foldedInFocus' : 'folded'] = new Set(said.has('fold') ? foldedBy(said) : foldedAtFirst());
  setTheme(said.has('theme') && (said.get('theme') === 'dark' ? 'dark' : 'light'));
  $('search').value = said.get('find') || '';
  find($('search').value);
  $('focus').classList.toggle('on', view.isFocused);
  readMembersOfPanels(said);
  draw();
  markCounts();
  setPanel(Object.hasOwn(PANELS, said.get('view')) ? said.get('view') : '');
}
const foldedBy = said => said.get('fold').split(',').filter(path => net.instances.has(path));


const lastBefore = lines => lines[countIn(lines, 0, lines.length, view.line - 1) - 1];
const firstAfter = lines => lines[countIn(lines, 0, lines.length, view.line)];

const KEYS = {
  ArrowRight: event => step(event.shiftKey ? 10 : 1), ArrowLeft: event => step(event.shiftKey ? -10 : -1),
  l: () => step(1), h: () => step(-1), PageDown: () => step(100), PageUp: () => step(-100),
  Home: () => go(1), End: () => go(trace.count), ' ': togglePlay, '>': () => changeSpeed(1), '<': () => changeSpeed(-1),
  ']': () => goTo(eventLine(1)), '[': () => goTo(eventLine(-1)),
  r: () => goTo(firstAfter(trace.rests)), R: () => goTo(lastBefore(trace.rests)),
  x: () => goTo(firstAfter(clashLines) || clashLines[0]),
  n: () => goToHit(1), N: () => goToHit(-1), '/': () => $('search').focus(), g: () => $('line').focus(),
  '+': () => zoom(0.8), '-': () => zoom(1.25), f: fit, w: () => setFollow(!view.isFollowing),
  o: () => setFocus(!view.isFocused), s: () => setStubs(!isStubbedNow()), d: otherTheme,
  c: () => togglePanel('chart'), t: () => togglePanel('streams'), y: () => togglePanel('source'),
  v: () => setWords(!view.isInWords), k: () => setCounts(!view.isCounted), S: savePicture,
  e: setOnly, E: setOnly, p: pin, P: pin, u: goBack, j: goBack,
  '?': () => toggleHelp(), Escape: escape,
};

function typed(event) {
  const field = event.target;
  if (event.key === 'Escape') field.blur();
  if (field.id === 'search') return typedInSearch(event);
  if (event.key !== 'Enter') return;
  event.preventDefault();
  go(Number(field.value));
  field.blur();
}

function typedInSearch(event) {
  const by = {Enter: 0, ArrowDown: 1, ArrowUp: -1}[event.key], text = $('search').value;
  if (by === undefined) return;
  event.preventDefault();
  if (search.text !== text) find(text);
  if (by) return chooseName(by);
  const {hits, chosen} = search, name = $('found').children[hits && hits.length === 0 ? Math.max(0, chosen) : chosen];
  if (name) goToSelected(name.dataset.select);
  else goToHit(event.shiftKey ? -1 : 1);
}

function pressed(event) {
  if (event.ctrlKey || event.metaKey || event.altKey) return;
  if (event.target.tagName === 'INPUT' && event.target.type !== 'range') typed(event);
  else if (Object.hasOwn(KEYS, event.key)) {
    event.preventDefault();
    KEYS[event.key](event);
  }
}

function clicked(event) {
  const target = event.target.closest('[data-line],[data-select],[data-component],[data-channel],[data-copy]');
  if (!target) return false;
  const {line, select: selected, component, channel, copy} = target.dataset;
  if (line) go(Number(line));
  else if (selected) goToSelected(selected);
  else if (component) select(`c${component}`);
  else if (channel) select(`k${channel}`);
  else fold(copy);
  return true;
}

const drag = {from: null, box: null, isFar: false, fingers: new Map(), list: null, streams: new Map()};

const pointOf = event => ({x: event.clientX, y: event.clientY});

function dragFrom(event) {
  drag.fingers.set(event.pointerId, pointOf(event));
  Object.assign(drag, {from: pointOf(event), box: {...view.box}, isFar: drag.fingers.size > 1});
}

function pinchTo(event) {
  const spread = () => {
    const [a, b] = [...drag.fingers.values()];
    return {x: (a.x + b.x) / 2, y: (a.y + b.y) / 2, size: Math.max(20, Math.hypot(a.x - b.x, a.y - b.y))};
  };
  const before = spread(), {x, y} = pointAt(before.x, before.y);
  drag.fingers.set(event.pointerId, pointOf(event));
  const after = spread();
  zoom(before.size / after.size, {x, y});
  const there = pointAt(after.x, after.y), {box} = view;
  setBox({...box, x: box.x + x - there.x, y: box.y + y - there.y});
}

function listFrom(event) {
  if (event.pointerType !== 'mouse') drag.list = event.clientY;
}
function listTo(event) {
  const rows = Math.trunc((drag.list - event.clientY) / ROW_HEIGHT);
  if (rows === 0) return;
  drag.list -= rows * ROW_HEIGHT;
  stepInList(rows);
}

function streamsFrom(event) {
  if (event.pointerType !== 'mouse' && view.panel === 'streams') drag.streams.set(event.pointerId, event.clientX);
}
function streamsTo(event) {
  const before = [...drag.streams.values()].slice(0, 2);
  drag.streams.set(event.pointerId, event.clientX);
  dragStreams(before, [...drag.streams.values()].slice(0, 2));
}

function dragTo(event) {
  if (drag.list !== null) return listTo(event);
  if (drag.streams.has(event.pointerId)) return streamsTo(event);
  if (drag.fingers.size > 1) return drag.fingers.has(event.pointerId) && pinchTo(event);
  if (!drag.from) return;
  const dx = event.clientX - drag.from.x, dy = event.clientY - drag.from.y;
  if (Math.abs(dx) + Math.abs(dy) > 4) drag.isFar = true;
  if (!drag.isFar) return;
  const size = pixel($('svg').getBoundingClientRect(), drag.box);
  setBox({...drag.box, x: drag.box.x - dx * size, y: drag.box.y - dy * size});
}

function dragEnd(event) {
  const isClick = drag.from && !drag.isFar && $('svg').contains(event.target);
  dragNothing(event);
  if (isClick && !added.takesClick(event) && !clicked(event)) select(null);
}

function dragNothing(event) {
  drag.fingers.delete(event.pointerId);
  drag.streams.delete(event.pointerId);
  Object.assign(drag, {from: null, list: null});
}

function clickedPanel(event) {
  if (!clicked(event) && view.panel === 'streams') go(streamLineAt(event.clientX));
}

function listen() {
  document.addEventListener('keydown', pressed);
  for (const id of ['journal', 'details', 'found']) $(id).addEventListener('click', clicked);
  $('chart').addEventListener('click', clickedPanel);
  $('found').addEventListener('mousedown', event => event.preventDefault());
  $('svg').addEventListener('pointerdown', dragFrom);
  window.addEventListener('pointermove', dragTo);
  window.addEventListener('pointerup', dragEnd);
  window.addEventListener('pointercancel', dragNothing);
  $('journal').addEventListener('pointerdown', listFrom);
  $('chart').addEventListener('pointerdown', streamsFrom);
  listenToWheels();
  listenToButtons();
  listenToSizes();
  $('scrubber').addEventListener('input', event => {
    play(false);
    go(Number(event.target.value), true);
  });
  $('search').addEventListener('input', event => {
    clearTimeout(search.timer);
    search.timer = setTimeout(() => find(event.target.value), trace.count > 100000 ? 200 : 30);
  });
  if (!added.isLive) window.addEventListener('hashchange', event => readLink(event.newURL));
}

function listenToWheels() {
  const onWheel = (id, turn, isWanted = () => true) => $(id).addEventListener('wheel', event => {
    if (!isWanted()) return;
    event.preventDefault();
    turn(event);
  }, {passive: false});
  onWheel('svg', event => zoom(Math.exp(event.deltaY * 0.0015), pointAt(event.clientX, event.clientY)));
  onWheel('journal', event => stepInList(Math.sign(event.deltaY) * 3));
  onWheel('chart', turnStreams, () => view.panel === 'streams');
}

function listenToSizes() {
  const observer = new ResizeObserver(() => {
    measure();
    showJournal();
    showStrip();
    if (view.panel) PANELS[view.panel]();
  });
  for (const id of ['svg', 'journal', 'chart', 'strip']) observer.observe($(id));
  window.addEventListener('resize', () => {
    measure();
    fit();
    show();
  });
}

function listenToButtons() {
  const buttons = {first: KEYS.Home, back: () => step(-1), play: togglePlay, forward: () => step(1), last: KEYS.End,
    slower: KEYS['<'], faster: KEYS['>'], charting: KEYS.c, streaming: KEYS.t, sourcing: KEYS.y, focus: KEYS.o, fit,
    nearer: KEYS['+'], farther: KEYS['-'], follow: KEYS.w, counting: KEYS.k, picture: savePicture, theme: otherTheme,
    only: setOnly, words: KEYS.v, ask: () => toggleHelp(true), close: () => toggleHelp(false)};
  for (const [id, act] of Object.entries(buttons)) $(id).onclick = () => {
    act();
    $(id).blur();
  };
}


let isLarge = false;

function showFoot() {
  const hostMoves = trace.hostLines.filter(line => isMove(trace.what[line])).length, {moves, values, told, met, bad} = found;
  const counts = [`${counted(all.components.length, 'component')}, ${counted(all.channels.length, 'channel')}`,
    counted(moves - hostMoves, 'firing'), counted(trace.hostLines.length, 'host line'), counted(trace.rests.length, 'rest')];
  const audited = [`${counted(moves, 'move')} by the four-move table`, `${counted(values, 'value')} handed over`,
    `${counted(told, 'phase')} told`, counted(met.size, 'clash', 'clashes')].join(', ');
  $('foot').textContent = bad ? `THIS PAGE IS DAMAGED: line ${bad} is none of a run`
    : `${counts.join('; ')}. Looked at again: ${audited}: all agree.`;
  $('foot').classList.toggle('bad', bad > 0);
}

function load(list, rows, text) {
  net = readNet(list, rows);
  all = {components: net.components.slice(1), channels: net.channels.slice(1)};
  Object.assign(view, {line: 1, selected: null, focusLine: 0, foldedInFocus: new Set(), isStubbed: null, picture: null,
    only: ''});
  view.foldedAtFirst = all.components.length > MANY / 2 ? [...net.instances.keys()].filter(path => !path.includes('/')) : [];
  view.folded = new Set(view.foldedAtFirst);
  measure();
  isLarge = view.isFocused = isTooSmall();
  Object.assign(streams, {from: 1, to: 0, pinned: [], key: ''});
  places.before = [];
  document.title = `${net.part} · breezesim`;
  $('part').textContent = net.part;
  takeTrace(readTrace(text, net));
}

function takeTrace(it) {
  trace = it;
  found = audit(trace, net);
  clashLines = [...found.met.values()].sort((a, b) => a - b);
  strip.key = streams.key = '';
  $('scrubber').max = trace.count;
  showFoot();
}

function open() {
  const times = {started: performance.now()};
  load(textOf('net'), textOf('rows'), textOf('trace'));
  times.read = performance.now() - times.started;
  play(false);
  measure();
  listen();
  readLink(window.location.href);
  times.open = performance.now() - times.started;
  times.layout = view.layoutTime;
  return times;
}

const forTests = {
  view, streams, added, limits, phaseAfter, lastChange, valueAfter, lineText, tell, tellShortly, streamPieces, drawn,
  get net() { return net; },
  get trace() { return trace; }, get found() { return found; }};
forTests.times = open();
window.breezesim = forTests;
})();
</script>
</body>
</html>
"##;
