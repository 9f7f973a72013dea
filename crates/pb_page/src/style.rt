//! How a page looks, and what its head says to a browser.

/// What stands in the head of a page, before its title: that it is UTF-8, fits a telephone's screen, and may
/// fetch nothing and run no script.
pub(crate) const META: &str = "<meta charset='utf-8'>
<meta name='viewport' content='width=device-width, initial-scale=1'>
<meta http-equiv='Content-Security-Policy' content=\"default-src 'none'; style-src 'unsafe-inline'; img-src data:\">
<meta name='color-scheme' content='light dark'>
<link rel='icon' href='data:,'>
";

/// How a page looks.
pub(crate) const STYLE: &str = "
:root {
  color-scheme: light dark;
  --paper: #ffffff; --ink: #1c1e23; --soft: #545a66; --line: #d5d9e0; --track: #e6e9ee;
  --won: #0a6b4b; --won-too: #27805f; --lost: #8a4a06; --many: #2b559c;
}
@media (prefers-color-scheme: dark) {
  :root {
    --paper: #15171b; --ink: #eceef2; --soft: #b4bac5; --line: #3a404a; --track: #2c3139;
    --won: #57c79d; --won-too: #379f78; --lost: #e2a55a; --many: #86aef0;
  }
}
* { box-sizing: border-box; }
body {
  margin: 0 auto; padding: 1.5rem 1rem 3rem; max-width: 62rem;
  background: var(--paper); color: var(--ink);
  font: 1rem/1.5 system-ui, 'Segoe UI', Roboto, 'Helvetica Neue', Arial, sans-serif;
  overflow-wrap: anywhere;
}
h1 { font-size: clamp(1.5rem, 5vw, 2.25rem); line-height: 1.2; margin: 0 0 .75rem; }
h2 { font-size: 1.3rem; line-height: 1.25; margin: 2.5rem 0 .5rem; }
.lead { font-size: 1.15rem; margin: .25rem 0; max-width: 46rem; }
p, li { max-width: 46rem; }
h2, p, li, caption, figcaption { hyphens: auto; }
figure { margin: 1rem 0 0; }
figcaption { margin-top: .4rem; }
figcaption, caption { color: var(--soft); font-size: .9rem; }
svg { display: block; width: 100%; }
[dir='rtl'] svg { transform: scaleX(-1); }
div.budget { position: relative; height: 2.75rem; border: 1px solid var(--soft); border-radius: .35rem; background: var(--track); overflow: hidden; }
div.budget span {
  position: absolute; inset-block: 0; inset-inline-start: calc(var(--from) * .01%); width: calc(var(--wide) * .01%);
  display: flex; flex-wrap: wrap; justify-content: center; overflow: hidden;
  background: var(--won); color: var(--paper); font-size: .85rem; line-height: 2.75rem; white-space: nowrap;
}
div.budget span:nth-child(even) { background: var(--won-too); }
div.budget span::before { content: ''; height: 100%; }
div.budget span::after { content: ''; position: absolute; inset-block: 0; inset-inline-end: 0; width: min(1px, 25%); background: var(--paper); }
div.budget bdi { padding: 0 .25rem; }
.id { color: var(--soft); font-size: .85em; font-weight: 400; }
.id:has(+ bdi:empty) { color: inherit; font-size: inherit; font-weight: inherit; }
.bar { height: .4rem; margin-top: .3rem; background: var(--track); border-radius: .2rem; overflow: hidden; }
.shares { max-width: 30rem; }
.shares .share { fill: var(--many); }
.shares .raise { fill: var(--many); opacity: .5; }
.shares .winners { fill: var(--won); }
.shares .budget { fill: var(--ink); }
.won .bar rect { fill: var(--won); }
.lost .bar rect { fill: var(--lost); }
.many .bar rect { fill: var(--many); }
details { margin-top: .3rem; font-size: .9rem; font-weight: 400; }
summary { color: var(--many); cursor: pointer; padding: .15rem 0; }
details ul { margin: .15rem 0 .3rem; padding-inline-start: 1.25rem; }
table { width: 100%; border-collapse: collapse; margin: .5rem 0 0; }
caption { text-align: start; padding-bottom: .4rem; }
th, td { padding: .5rem .6rem; border-bottom: 1px solid var(--line); text-align: start; vertical-align: top; }
thead th { color: var(--soft); font-size: .85rem; line-height: 1.25; vertical-align: bottom; hyphens: auto; }
tbody th { font-weight: 600; }
.n { text-align: end; font-variant-numeric: tabular-nums; }
td.n { overflow-wrap: normal; white-space: nowrap; }
.missing { display: inline-block; max-width: 12rem; white-space: normal; overflow-wrap: break-word; }
pre, code, data { direction: ltr; unicode-bidi: isolate; }
.many thead .n { width: 35%; }
dl { margin: .5rem 0; }
dt { color: var(--soft); font-size: .9rem; }
dd { margin: 0 0 .6rem; }
a { color: var(--many); }
nav ul { display: flex; flex-wrap: wrap; gap: .25rem 1.25rem; margin: 1rem 0 0; padding: 0; list-style: none; }
tr:target { outline: 2px solid var(--many); outline-offset: -1px; }
code { font: .9rem/1.5 ui-monospace, 'DejaVu Sans Mono', Consolas, monospace; }
pre { margin: .5rem 0; padding: .75rem; background: var(--track); border-radius: .35rem; white-space: pre-wrap; }
@media (min-width: 44rem) {
  .wide thead .n { width: 7.5rem; }
  .wide thead .round { width: 6rem; }
  .wide thead .category { width: 16%; }
}
@media (min-width: 44rem) and (max-width: 55.99rem) {
  .wide thead:has(.category) .n:not(.round) { width: 6rem; }
}
@media (max-width: 43.99rem) {
  body { padding: 1rem .9rem 1.5rem; line-height: 1.4; }
  h2 { margin: 1.4rem 0 .3rem; font-size: 1.2rem; }
  .lead { font-size: 1.05rem; }
  section > p { margin: .6rem 0; }
  ol, section > ul { margin: .5rem 0; padding-inline-start: 1.4rem; }
  section > p, ol > li, section > ul > li, nav { font-size: .95rem; }
  figcaption, caption { font-size: .875rem; }
  .wide details { margin: 0; }
  nav ul { display: block; line-height: 1.6; }
  nav li { display: inline; margin-inline-end: .9rem; }
  th, td { padding: .25rem .4rem; }
  .many table:not(.wide) .bar { float: inline-end; width: 45%; margin-top: .5rem; }
  .wide, .wide caption, .wide tbody { display: block; }
  .wide thead { position: absolute; width: 1px; height: 1px; overflow: hidden; clip-path: inset(50%); }
  .wide tr { position: relative; display: flex; flex-wrap: wrap; column-gap: .7rem; padding: .3rem 0 .5rem; border-bottom: 1px solid var(--line); }
  .wide .bar { position: absolute; inset-inline: 0; bottom: 0; margin: 0; height: .25rem; border-radius: 0; }
  .wide th, .wide td { display: block; min-width: 0; max-width: 100%; padding: 0; border: 0; line-height: 1.25; }
  .wide tbody th { flex: 1 0 100%; order: -1; padding-bottom: .1rem; }
  .wide td { flex: 1 0 100%; display: flex; justify-content: space-between; align-items: baseline; gap: .75rem; font-size: .95rem; }
  .wide td:has(.round, .added, .cost, .votes, .in_full, .category_won, .category_cost, .rule_projects, .rule_cost), .wide td:not(:has(data)) { flex: 0 1 auto; gap: .3rem; }
  .wide td:not(:has(data)) { margin-inline-start: auto; }
  .wide td:has(data)::before { content: attr(data-label); content: attr(data-label) / ''; color: var(--soft); font-size: .9rem; text-align: start; white-space: normal; overflow-wrap: anywhere; hyphens: auto; }
  .wide td data:not(.round, .added, .cost, .votes) { flex: none; max-width: 70%; }
}
@media print {
  :root {
    --paper: #ffffff; --ink: #000000; --soft: #444444; --line: #bbbbbb; --track: #eeeeee;
    --won: #0a6b4b; --won-too: #27805f; --lost: #8a4a06; --many: #2b559c;
  }
  html { font-size: 10pt; }
  body { padding: 0; max-width: none; }
  h2, caption { break-after: avoid; }
  tbody tr:first-child, pre { break-before: avoid; }
  tr, figure, pre, dl, li { break-inside: avoid; }
  svg { print-color-adjust: exact; -webkit-print-color-adjust: exact; }
  nav { display: none; }
  details::details-content { content-visibility: visible; block-size: auto; }
}
@media print, (forced-colors: active) {
  div.budget, div.budget span, div.budget span:nth-child(even) { background: none; color: inherit; }
  div.budget span::after { background: currentcolor; forced-color-adjust: none; print-color-adjust: exact; -webkit-print-color-adjust: exact; }
}
";
