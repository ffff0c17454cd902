// What the page does when an entry or a key is chosen, and when something is searched.
pub const SCRIPT: &str = r##""use strict";
const block = id => document.getElementById(id).textContent.trim();
const objects = id => block(id).split("\n").filter(it => it).map(it => JSON.parse(it));
const report = objects("report"), about = JSON.parse(block("about")), stats = JSON.parse(block("stats"));
const setup = report[0], audit = report.at(-1), entries = report.slice(1).filter(it => it.line === "entry");
const told = block("told").split("\n"), changes = objects("forests");
const list = document.getElementById("entries"), chart = document.getElementById("chart");
const ROW = 22, COLUMN = 64;
let chosen = 0, marked = null;

function make(name, words, ...inside) {
  const it = name.startsWith("svg:")
    ? document.createElementNS("http://www.w3.org/2000/svg", name.slice(4))
    : document.createElement(name);
  for (const [word, value] of Object.entries(words)) it.setAttribute(word, value);
  it.append(...inside);
  return it;
}

// The forest after each entry that is shown: what changed is taken into a copy of the one before.
const forests = [];
for (const change of changes) {
  const keys = (forests.at(-1) || []).slice();
  for (const key of change.keys) keys[key.place] = key;
  forests.push(keys);
}

// Which entries belong together: the other end of a message, and the call and its reply. A link
// brings messages in the order in which they were sent. A message that was sent before the first
// entry shown has no other end here.
const other = new Array(entries.length).fill(null), calls = new Array(entries.length).fill(null);
const sent = new Map(), fetched = new Map(), made = new Map();
const early = new Map(Object.entries(about.early));

// The VPE whose call an entry serves, as far as the entry names it.
function caller(entry) {
  if (entry.ask) return entry.ask.asker;
  if (!entry.message) return undefined;
  const { name, place, key, parent } = entry.message;
  const word = name === "obtain-ok" ? key : place || (name.startsWith("delegate-") ? parent : "");
  return word ? Number(word.split(".")[1]) : undefined;
}

entries.forEach((entry, at) => {
  if (entry.event === "flush") {
    const way = entry.kernel + " " + entry.peer;
    sent.set(way, [...(sent.get(way) || []), at]);
  } else if (entry.event === "fetch") {
    const way = entry.peer + " " + entry.kernel, before = early.get(way) || 0;
    const from = before ? undefined : (sent.get(way) || []).shift();
    if (before) early.set(way, before - 1);
    if (from !== undefined) { other[at] = from; other[from] = at; }
    fetched.set(entry.kernel, at);
  } else if (entry.event === "handle" && fetched.has(entry.kernel)) {
    other[at] = fetched.get(entry.kernel);
    fetched.delete(entry.kernel);
  }
  if (entry.event === "call") made.set(entry.vpe, at);
  const served = made.get(caller(entry));
  if (served !== undefined) calls[at] = served;
  if (entry.reply && made.has(entry.reply.vpe)) {
    const call = made.get(entry.reply.vpe);
    if (call !== at) { calls[at] = call; calls[call] = at; }
    made.delete(entry.reply.vpe);
  }
});

const keysOf = line => line.match(/\b\d+\.\d+\.\d+\.\d+\b/g) || [];
const mentions = told.map(line => new Set(keysOf(line)));

// The entries that the chosen one lights up: where its message was sent, taken and handled; its
// call, or all that serve it and its reply.
function together(at) {
  const found = new Set();
  const ends = it => {
    for (let end = it; end !== null && !found.has(end); end = other[end]) found.add(end);
    other.forEach((end, here) => { if (found.has(end)) found.add(here); });
  };
  if (other[at] !== null || entries[at].message) ends(at);
  if (calls[at] !== null) found.add(calls[at]);
  calls.forEach((call, it) => { if (call === at) found.add(it); });
  found.delete(at);
  return found;
}

function drawChart() {
  const width = setup.kernels * COLUMN, height = (entries.length + 1) * ROW;
  chart.setAttribute("width", width);
  chart.setAttribute("height", height);
  const x = kernel => kernel * COLUMN + COLUMN / 2, y = at => (at + 1) * ROW + ROW / 2;
  for (let kernel = 0; kernel < setup.kernels; kernel++) {
    chart.append(make("svg:line", { x1: x(kernel), y1: ROW, x2: x(kernel), y2: height }));
    chart.append(make("svg:text", { x: x(kernel), y: 15 }, "K" + kernel));
  }
  entries.forEach((entry, at) => {
    if (entry.event !== "flush") return;
    const to = other[at];
    chart.append(make("svg:line", {
      class: to === null ? "way open" : "way", "data-from": at, "data-to": to === null ? "" : to,
      x1: x(entry.kernel), y1: y(at), x2: x(entry.peer), y2: y(to === null ? entries.length - 1 : to),
    }));
  });
  entries.forEach((entry, at) => {
    const kind = entry.reply ? (entry.reply.number === 0 ? " reply" : " refused") : "";
    const dot = make("svg:circle", {
      cx: x(entry.kernel), cy: y(at), r: 5, class: (entry.event === "call" ? "call" : "") + kind,
    });
    dot.append(make("svg:title", {}, told[at]));
    dot.addEventListener("click", () => choose(at));
    chart.append(dot);
  });
}

function drawForest() {
  const keys = forests[chosen + 1] || forests.at(-1) || [], before = forests[chosen] || [];
  const entry = entries[chosen];
  const lit = new Set(entry ? mentions[chosen] : []);
  if (marked) lit.add(marked);
  const lists = keys.map(() => make("ul", {})), roots = make("ul", { role: "tree" });
  keys.forEach((key, place) => {
    const words = [key.state === "on its way" ? "way" : key.state];
    if (lit.has(key.key)) words.push("lit");
    if (before[place] !== key) words.push("new");
    const row = make("span", { class: words.join(" "), tabindex: 0, role: "treeitem", "data-key": key.key },
      make("b", {}, key.key), " ", key.text);
    row.addEventListener("click", () => find(key.key));
    row.addEventListener("keydown", event => { if (event.key === "Enter") find(key.key); });
    const item = make("li", {}, row, lists[place]);
    (key.parent === undefined || key.parent === null ? roots : lists[key.parent]).append(item);
  });
  for (const it of lists) if (!it.children.length) it.remove();
  document.getElementById("forest").replaceChildren(roots);
}

function link(at) {
  const it = make("a", { href: "#" + entries[at].entry }, "entry " + entries[at].entry);
  it.addEventListener("click", event => { event.preventDefault(); choose(at); });
  return it;
}

function drawFacts() {
  const entry = entries[chosen], facts = [];
  const add = (name, ...inside) => facts.push(make("dt", {}, name), make("dd", {}, ...inside));
  if (!entry) return;
  add("event", `${entry.event} at K${entry.kernel}` + (entry.vpe === undefined ? "" : ` of v${entry.vpe}`));
  if (entry.call) add("call", `${entry.call.words} (call ${entry.call.number} of v${entry.vpe})`);
  if (entry.message) add("message", `${entry.message.words}, ${entry.event === "flush" ? "to" : "from"} K${entry.peer}`);
  if (entry.ask) add("asked by", `v${entry.ask.asker}: ${entry.ask.answer}`);
  if (entry.grant) add("granted", `${entry.grant.key} from ${entry.grant.parent}`);
  if (entry.cut) add("cut off", entry.cut);
  if (entry.reply) add("reply", `to v${entry.reply.vpe}: ${entry.reply.number} ${entry.reply.code}`);
  if (other[chosen] !== null) add(entry.event === "handle" ? "fetched by" : "other end", link(other[chosen]));
  else if (entry.event === "flush" || entry.event === "fetch") add("other end", "not among the entries shown");
  if (calls[chosen] !== null) add(entry.event === "call" ? "answered by" : "its call", link(calls[chosen]));
  else if (entry.event === "call" && !entry.reply) add("answered by", "no entry shown");
  document.getElementById("facts").replaceChildren(...facts);
}

function choose(at) {
  if (!entries.length) return;
  chosen = Math.max(0, Math.min(entries.length - 1, at));
  const near = together(chosen);
  [...list.children].forEach((row, it) => {
    row.classList.toggle("chosen", it === chosen);
    row.classList.toggle("lit", near.has(it));
    row.setAttribute("aria-selected", it === chosen);
  });
  list.setAttribute("aria-activedescendant", "e" + entries[chosen].entry);
  [...chart.querySelectorAll("circle")].forEach((dot, it) => {
    dot.classList.toggle("chosen", it === chosen);
    dot.classList.toggle("lit", near.has(it));
  });
  for (const way of chart.querySelectorAll(".way")) {
    const ends = [way.dataset.from, way.dataset.to];
    way.classList.toggle("lit", ends.every(it => it !== "" && (+it === chosen || near.has(+it))));
  }
  document.getElementById("title").textContent = `Entry ${entries[chosen].entry}`;
  document.getElementById("after").textContent = `The capabilities after entry ${entries[chosen].entry}`;
  drawFacts();
  drawForest();
  list.children[chosen].scrollIntoView({ block: "nearest" });
  history.replaceState(null, "", "#" + entries[chosen].entry);
}

// Marks the entries whose lines have the word, and goes to the next one.
function find(word, go = true) {
  const search = document.getElementById("search");
  if (search.value !== word) search.value = word;
  const wanted = word.trim().toLowerCase();
  const isKey = /^\d+\.\d+\.\d+\.\d+$/.test(wanted);
  marked = isKey ? wanted : null;
  const hits = told.map((line, at) => wanted !== ""
    && (isKey ? mentions[at].has(wanted) : `${entries[at].entry} ${line}`.toLowerCase().includes(wanted)));
  [...list.children].forEach((row, at) => row.classList.toggle("found", hits[at]));
  const count = hits.filter(it => it).length;
  say(wanted === "" ? "" : `${count} ${count === 1 ? "entry" : "entries"} with "${word.trim()}"`);
  if (go && count) {
    let at = chosen;
    do { at = (at + 1) % hits.length; } while (!hits[at]);
    choose(at);
  } else {
    drawForest();
  }
}

function say(text) {
  const range = entries.length < about.entries
    ? `entries ${about.first} to ${about.first + entries.length - 1} of ${about.entries}: --from and --to choose others`
    : `${about.entries} entries, ${setup.kernels} ${setup.kernels === 1 ? "kernel" : "kernels"}`;
  document.getElementById("said").textContent = text || range;
}

function drawCounts() {
  const rows = [];
  const add = (name, value) => rows.push(make("tr", {}, make("th", {}, name), make("td", {}, String(value))));
  const listed = counts => Object.entries(counts).filter(it => it[1]).map(it => `${it[0]} ${it[1]}`).join(", ");
  add("entries", `${stats.entries}: ${listed(stats.events)}`);
  add("longest chain", stats.chain);
  add("messages", stats.sent ? `${stats.sent}: ${listed(stats.messages)}` : 0);
  add("replies", listed(stats.replies) || 0);
  add("keys", `${audit.made} made, ${audit.cut} cut, ${audit.held.length} held at the end`);
  document.getElementById("counts").replaceChildren(...rows);
}

document.addEventListener("keydown", event => {
  const search = document.getElementById("search");
  if (event.target === search) {
    if (event.key === "Enter") find(search.value);
    if (event.key === "Escape") { find("", false); list.focus(); }
    return;
  }
  if (event.ctrlKey || event.metaKey || event.altKey) return;
  const act = {
    ArrowDown: () => choose(chosen + 1), j: () => choose(chosen + 1),
    ArrowUp: () => choose(chosen - 1), k: () => choose(chosen - 1),
    Home: () => choose(0), End: () => choose(entries.length - 1),
    m: () => choose(other[chosen] ?? chosen), c: () => choose(calls[chosen] ?? chosen),
    "/": () => search.focus(),
  }[event.key];
  if (act) { event.preventDefault(); act(); }
});
document.getElementById("search").addEventListener("input", event => find(event.target.value, false));

entries.forEach((entry, at) => {
  const row = make("li", { id: "e" + entry.entry, role: "option" }, make("b", {}, String(entry.entry)), told[at]);
  row.addEventListener("click", () => choose(at));
  list.append(row);
});
drawChart();
drawCounts();
say("");
if (!entries.length) drawForest();
choose(Math.max(0, entries.findIndex(it => String(it.entry) === location.hash.slice(1))));
list.focus({ preventScroll: true });
"##;
