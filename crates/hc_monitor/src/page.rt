//! The page that shows the numbers as they move.

/// It asks for the numbers each second, and has nothing from elsewhere.
pub(crate) const PAGE: &str = r#"<!doctype html>
<html lang="en">
<head>
<meta charset="utf-8">
<meta name="viewport" content="width=device-width,initial-scale=1">
<meta name="color-scheme" content="light dark">
<title>hcache</title>
<style>
:root{--bg:#fff;--fg:#1b1d1f;--dim:#5c6166;--line:#d9dce0;--ink:#2b6cb0;--bad:#b3140f;--warn:#8f4e00}
@media(prefers-color-scheme:dark){:root{--bg:#15171a;--fg:#e4e6e8;--dim:#9ba1a8;--line:#33383e;--ink:#6ba6e8;--bad:#ff8077;--warn:#e0a040}}
*{box-sizing:border-box}
body{font:15px/1.45 system-ui,sans-serif;max-width:60rem;margin:0 auto;padding:1.25rem;color:var(--fg);background:var(--bg);overflow-wrap:break-word}
h1{font-size:1.2rem;margin:0}h2{font-size:.93rem;margin:1.5rem 0 .2rem}p{margin:.15rem 0;color:var(--dim);font-size:.9rem}
#state{font-weight:400}.stops{color:var(--warn)}.lost{color:var(--bad)}
.top{display:grid;grid-template-columns:repeat(auto-fit,minmax(9.5rem,1fr));gap:1rem 1.75rem;margin-top:1.1rem}
.top span{color:var(--dim);font-size:.87rem}.top b{display:block;font-size:1.7rem;line-height:1.2;font-weight:600;font-variant-numeric:tabular-nums}
.top svg{width:100%;height:36px;display:block;border-bottom:1px solid var(--line)}
.cols{display:grid;grid-template-columns:repeat(auto-fit,minmax(17rem,1fr));gap:0 2.5rem}
table{border-collapse:collapse;width:100%;font-size:.93rem}
td,th{font-weight:400;padding:.18rem 0;border-bottom:1px solid var(--line);text-align:left}
td{text-align:right;font-variant-numeric:tabular-nums;white-space:nowrap;padding-left:.75rem}
td.of{color:var(--dim)}td.m{width:22%}meter{width:100%;height:.6rem;display:block}.z{color:var(--dim)}
polyline{fill:none;stroke:var(--ink);stroke-width:1.5;vector-effect:non-scaling-stroke}a{color:var(--ink)}
</style>
</head>
<body>
<h1>hcache <span id="state" role="status">is asked</span></h1>
<noscript><p>This page needs a script to show numbers that move; <a href="/metrics">/metrics</a> has them all.</p></noscript>
<div class="top" id="top"></div>
<div class="cols" id="cols"></div>
<p>Rates are of the last 10 seconds, lines of the last two minutes. <a href="/metrics">/metrics</a> has all numbers. <span id="age"></span></p>
<script>
'use strict';
(() => {
const SAMPLES = 120, samples = [], lines = {}, SVG = 'http://www.w3.org/2000/svg';
const at = id => document.getElementById(id);
const add = (parent, tag, text, style) => {
  const element = parent.appendChild(document.createElement(tag));
  if (text != null) element.textContent = text;
  if (style) element.className = style;
  return element;
};
const number = v => v.toLocaleString('en-US', {maximumFractionDigits: v < 10 ? 1 : 0});
const bytes = v => {
  let unit = 0;
  while (v >= 1024 && unit < 4) { v /= 1024; unit++; }
  return v.toFixed(v < 10 && unit ? 1 : 0) + ' ' + ['bytes', 'KiB', 'MiB', 'GiB', 'TiB'][unit];
};
const percent = v => v == null || isNaN(v) ? '-' : (v * 100).toFixed(1) + '%';
const read = text => {
  const found = {};
  for (const line of text.split('\n')) {
    const parts = /^([a-z_]+)(?:\{(.*)\})? (\d+)$/.exec(line);
    if (parts) (found[parts[1]] = found[parts[1]] || {})[parts[2] || ''] = +parts[3];
  }
  return found;
};
const all = (m, name) => m['hcache_' + name] || {};
const one = (m, name) => all(m, name)[''] || 0;
const sum = (m, name, pattern) => Object.entries(all(m, name)).reduce((s, [k, v]) => !pattern || pattern.test(k) ? s + v : s, 0);
const marks = m => {
  const found = {};
  for (const [labels, v] of Object.entries(all(m, 'replies_total'))) {
    const mark = /mark="([^"]*)"/.exec(labels)[1];
    found[mark] = (found[mark] || 0) + v;
  }
  return found;
};
const draw_line = (parent, values) => {
  const svg = parent.appendChild(document.createElementNS(SVG, 'svg'));
  svg.setAttribute('viewBox', `0 0 ${SAMPLES - 1} 36`);
  svg.setAttribute('preserveAspectRatio', 'none');
  svg.setAttribute('aria-hidden', 'true');
  if (!values.length) return;
  const top = Math.max(...values, 1e-9), line = svg.appendChild(document.createElementNS(SVG, 'polyline'));
  line.setAttribute('points', values.map((v, i) => `${SAMPLES - values.length + i},${(34 - 32 * v / top).toFixed(1)}`).join(' '));
};
const keep = (name, v) => {
  const line = lines[name] = lines[name] || [];
  if (samples.length > 1) line.push(v || 0);
  if (line.length > SAMPLES) line.shift();
  return line;
};
const section = title => add(add((() => {
  const part = add(at('cols'), 'section');
  add(part, 'h2', title);
  return part;
})(), 'table'), 'tbody');
const row = (table, name, value, of) => {
  const line = add(table, 'tr', null, value === 0 ? 'z' : '');
  add(line, 'th', name).scope = 'row';
  add(line, 'td', typeof value == 'number' ? number(value) : value);
  if (of != null) add(line, 'td', of, 'of');
  return line;
};
const bound = (table, name, value, most, text) => {
  const meter = add(add(row(table, name, text(value), 'of ' + text(most)), 'td', null, 'm'), 'meter');
  meter.max = most || 1;
  meter.value = value;
  meter.textContent = percent(value / most);
  meter.setAttribute('aria-label', name);
};
const draw = m => {
  const now = Date.now() / 1e3;
  samples.push([now, m]);
  if (samples.length > SAMPLES) samples.shift();
  const [then, before] = samples[Math.max(0, samples.length - 11)], seconds = Math.max(now - then, .5), first = samples.length < 2;
  const grown = (name, pattern) => sum(m, name, pattern) - sum(before, name, pattern);
  const hit = /mark="(stale-)?hit"/, replies = grown('replies_total'), ratio = replies ? grown('replies_total', hit) / replies : null;
  const stops = one(m, 'draining');
  at('state').textContent = stops ? 'stops' : 'serves';
  at('state').className = stops ? 'stops' : '';
  at('top').textContent = '';
  const to = /to="clients"/;
  for (const [name, value, since, line] of [
    ['hit ratio', percent(ratio), percent(sum(m, 'replies_total', hit) / sum(m, 'replies_total')) + ' since the start', keep('ratio', ratio)],
    ['requests a second', first ? '-' : number(replies / seconds), number(sum(m, 'replies_total')) + ' since the start', keep('rate', first ? 0 : replies / seconds)],
    ['to clients, a second', first ? '-' : bytes(grown('sent_bytes_total', to) / seconds), bytes(sum(m, 'sent_bytes_total', to)) + ' since the start', keep('sent', first ? 0 : grown('sent_bytes_total', to) / seconds)],
    ['clients', number(one(m, 'clients')), number(one(m, 'clients_awaiting')) + ' await a reply', keep('clients', one(m, 'clients'))],
  ]) {
    const part = add(at('top'), 'div');
    add(part, 'span', name);
    add(part, 'b', value);
    draw_line(part, line);
    add(part, 'span', since);
  }
  at('cols').textContent = '';
  let table = section('Store and bounds');
  for (const [name, key, text] of [['stored', 'stored_bytes', bytes], ['targets', 'stored_targets', number], ['held beside it', 'held_bytes', bytes], ['clients', 'clients', number]])
    bound(table, name, one(m, key), one(m, key + '_limit'), text);
  row(table, 'dropped for room', one(m, 'evictions_total'), 'targets');
  table = section('Replies, by mark');
  const was = marks(before);
  for (const [mark, v] of Object.entries(marks(m))) row(table, mark, v, first ? '' : number((v - (was[mark] || 0)) / seconds) + '/s');
  table = section('Replies, by status');
  for (const status of ['2xx', '3xx', '4xx', '5xx', 'other']) row(table, status, sum(m, 'replies_total', new RegExp(`status="${status}"`)));
  table = section('Forwards');
  row(table, 'are open', one(m, 'forwards'));
  row(table, 'wait for a link', one(m, 'forwards_queued'));
  row(table, 'requests that wait for one', one(m, 'waiters'));
  row(table, 'since the start', one(m, 'forwards_total'));
  for (const [title, key] of [['Requests that were refused', 'refused_total'], ['Responses that failed', 'failed_responses_total'], ['Clients who were cut off', 'cut_off_total']]) {
    table = section(title);
    const kinds = Object.entries(all(m, key));
    if (key == 'refused_total') row(table, 'no place was free', one(m, 'turned_away_total'));
    else if (!kinds.length) row(table, 'none', 0);
    for (const [why, v] of kinds) row(table, /"(.*)"/.exec(why)[1], v);
  }
  table = section('Recording and log');
  row(table, 'recording', one(m, 'recording') ? 'goes on' : one(m, 'recording_ended_total') ? 'has ended' : 'none');
  row(table, 'lines of the log that were lost', one(m, 'access_log_lost_lines_total'));
  row(table, 'longest turn', number(one(m, 'longest_turn_microseconds') / 1e3) + ' ms');
};
let told = 0;
const go = async () => {
  try {
    const answer = await fetch('/metrics', {cache: 'no-store'});
    draw(read(await answer.text()));
    told = Date.now();
    at('age').textContent = '';
    document.body.style.opacity = 1;
  } catch (fault) {
    at('state').textContent = "doesn't answer";
    at('state').className = 'lost';
    at('age').textContent = told ? `These numbers are ${Math.round((Date.now() - told) / 1e3)} s old.` : '';
    document.body.style.opacity = .7;
  }
  setTimeout(go, document.hidden ? 5e3 : 1e3);
};
go();
})();
</script>
</body>
</html>
"#;
