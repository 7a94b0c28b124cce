// A part of the page's frame, written by page/write_frame.py.

pub(crate) fn text() -> &'static str {
    r##"</script>
<script>
"use strict";

// ---- Elements. Every text of an event goes in as a text node: nothing here writes markup.
const byName = (id) => document.getElementById(id);
const SVG = "http://www.w3.org/2000/svg";
const UNSEEN = /[\u0000-\u001f\u007f-\u009f\u061c\u200b-\u200f\u2028-\u202e\u2060-\u206f\ufeff\ufffe\uffff]/g;

/** Control characters are shown by their pictures, marks that turn the direction of text by their codes. */
function visible(text, kept = "") {
  return String(text).replace(UNSEEN, (mark) => {
    if (mark === kept) return mark;
    const code = mark.charCodeAt(0);
    return code < 0x20 ? String.fromCharCode(0x2400 + code) : `[U+${code.toString(16).toUpperCase().padStart(4, "0")}]`;
  });
}

/** A part is a node, a text of this page, or an array with one text of an event. */
function put(parent, ...parts) {
  for (const part of parts) {
    if (part === null) continue;
    if (!Array.isArray(part)) { parent.append(part instanceof Node ? part : String(part)); continue; }
    const isolated = document.createElement("bdi");
    isolated.dir = "auto"; isolated.textContent = visible(part[0]);
    parent.append(isolated);
  }
  return parent;
}

function make(tag, { data = {}, ...attributes } = {}, ...parts) {
  const element = document.createElement(tag);
  for (const [name, value] of Object.entries(attributes)) element.setAttribute(name, value);
  Object.assign(element.dataset, data);
  return put(element, ...parts);
}

function draw(tag, attributes, ...children) {
  const element = document.createElementNS(SVG, tag);
  for (const [name, value] of Object.entries(attributes)) element.setAttribute(name, value);
  element.append(...children);
  return element;
}

const plain = (parts) => parts.map((part) => (Array.isArray(part) ? visible(part[0]) : part)).join("");
const shown = (number) => number.toLocaleString("en");
const count = (number, one, more = `${one}s`) => `${shown(number)} ${number === 1 ? one : more}`;
const whyRefused = ({ because = "?", field, fault }) => [because, field, fault].filter(Boolean).join(" ");
const own = (value, key) => (typeof value === "object" && value !== null && Object.hasOwn(value, key) ? value[key] : undefined);
const classOf = (verdict) => verdict.replace(" ", "-");
// ---- The room: events by place (from 1), the graph, and the states as changes.
const LEVELS = "m.room.power_levels";
const [KEPT_STATES, STATE_EVERY] = [24, 512];
const keyOf = (type, stateKey) => JSON.stringify([type, stateKey]);

function setOrDelete(state, key, place) { if (place === undefined || place === null) state.delete(key); else state.set(key, place); }

function change(state, changes) {
  for (const [type, stateKey, place] of changes) setOrDelete(state, keyOf(type, stateKey), place);
  return state;
}

class Room {
  constructor(data) {
    this.events = data.events; this.size = data.events.length; this.refused = data.refused ?? []; this.name = data.room;
    this.places = new Map(data.events.map((event, index) => [event.line.event_id, index + 1])); this.kept = new Map();
    this.linkEvents(); this.walkStates();
  }
  line(place) { return this.events[place - 1].line; }
  id(place) { return this.line(place).event_id; }
  place(id) { return this.places.get(id) ?? 0; }
  base(place) { return this.events[place - 1].base ?? 0; }
  linkEvents() {
    this.prev = [[]]; this.next = [[]]; this.redacts = new Map();
    for (let place = 1; place <= this.size; place++) {
      const { prev_events: ids, redacted_by: redactions } = this.line(place);
      this.prev.push([...new Set(ids.map((id) => this.place(id)))].filter((prev) => prev > 0 && prev < place));
      this.next.push([]);
      for (const prev of this.prev[place]) this.next[prev].push(place);
      for (const id of redactions) this.redacts.set(id, [...(this.redacts.get(id) ?? []), place]);
    }
  }
  /** What stood at the event's own key, and which power levels stood, before each event: one walk over the tree of bases. */
  walkStates() {
    this.prior = new Int32Array(this.size + 1); this.levels = new Int32Array(this.size + 1);
    const child = new Int32Array(this.size + 1); const sibling = new Int32Array(this.size + 1);
    for (let place = this.size; place > 0; place--) { sibling[place] = child[this.base(place)]; child[this.base(place)] = place; }
    const walk = new Walk(this); let place = child[0];
    while (place > 0) {
      walk.enter(place); let following = child[place];
      while (following === 0 && place > 0) { walk.leave(); following = sibling[place]; place = this.base(place); }
      place = following;
    }
  }
  /** The state after an event, as a map from keys to places: the changes since the nearest state that is kept whole. */
  stateAfter(wanted) {
    const chain = [];
    let place = wanted;
    for (; place > 0 && !this.kept.has(place); place = this.base(place)) chain.push(place);
    const state = new Map(place > 0 ? this.kept.get(place) : []);
    while (chain.length > 0) {
      place = chain.pop();
      change(change(state, this.events[place - 1].before), this.events[place - 1].after);
      if (chain.length % STATE_EVERY === 0) this.keep(place, new Map(state));
    }
    return state;
  }
  stateBefore(place) {
    const base = this.base(place);
    return change(base > 0 ? this.stateAfter(base) : new Map(), this.events[place - 1].before);
  }
  keep(place, state) { if (this.kept.set(place, state).size > KEPT_STATES) this.kept.delete(this.kept.keys().next().value); }
}

/** One state, changed on the way down the tree of bases and put back on the way up. */
class Walk {
  constructor(room) { Object.assign(this, { room, state: new Map(), undo: [], marks: [] }); }
  enter(place) {
    const { before, after, line } = this.room.events[place - 1];
    this.marks.push(this.undo.length);
    this.apply(before);
    this.room.levels[place] = this.state.get(keyOf(LEVELS, "")) ?? 0;
    if (line.state_key !== undefined) this.room.prior[place] = this.state.get(keyOf(line.type, line.state_key)) ?? 0;
    this.apply(after);
  }
  apply(changes) {
    for (const [type, stateKey, place] of changes) {
      const key = keyOf(type, stateKey);
      this.undo.push([key, this.state.get(key)]);
      setOrDelete(this.state, key, place);
    }
  }
  leave() { for (const mark = this.marks.pop(); this.undo.length > mark;) setOrDelete(this.state, ...this.undo.pop()); }
}

// ---- Lanes: each event that still has events to come holds a column, down to the last of them.
const MOST_COLUMNS = 24;
class Lanes {
  constructor(room) {
    Object.assign(this, { room, width: 1, lanes: [] });
    this.column = new Uint8Array(room.size + 1); this.open = new Uint32Array(room.size + 1);
    this.last = new Int32Array(room.size + 1); this.laneOf = new Int32Array(room.size + 1).fill(-1);
    for (let place = room.size; place > 0; place--) this.give(place);
  }
  /** From the last event up: an event stands in the lane that waits for it, and its prev events get lanes. */
  give(place) {
    this.lanes.forEach((waits, lane) => { if (waits) this.open[place] |= 1 << Math.min(lane, MOST_COLUMNS - 1); });
    const lane = this.laneOf[place] < 0 ? this.free() : this.laneOf[place];
    this.lanes[lane] = 0;
    this.column[place] = Math.min(lane, MOST_COLUMNS - 1);
    this.width = Math.max(this.width, this.column[place] + 1);
    for (const prev of this.room.prev[place]) {
      if (this.laneOf[prev] >= 0) continue;
      this.laneOf[prev] = this.lanes[lane] ? this.free() : lane;
      this.lanes[this.laneOf[prev]] = prev;
      this.last[prev] = place;
    }
  }
  free() { const lane = this.lanes.indexOf(0); return lane < 0 ? this.lanes.length : lane; }
  above(place) { return place > 1 ? this.open[place - 1] : 0; }
  /** The columns that lead into the events of a row, out of them, and past them. */
  around(first, last) {
    let [into, out] = [0, 0];
    for (let place = first; place <= last; place++) {
      for (const prev of this.room.prev[place]) if (prev < first) into |= 1 << this.column[prev];
      if (this.last[place] > last) out |= 1 << this.column[place];
    }
    return { into, out, past: this.open[last] & ~out };
  }
}

// ---- What an event does, in words.
const NAMED_LEVELS = {
  ban: ["level to ban", 50], kick: ["level to kick", 50], redact: ["level to redact", 50], invite: ["level to invite", 0],
  users_default: ["level of others", 0], events_default: ["level to send messages", 0], state_default: ["level to set state", 50],
};
const OWN_LEAVES = { invite: "declines the invite", knock: "withdraws the knock" };
const OTHER_LEAVES = { invite: "withdraws the invite of ", ban: "unbans ", knock: "declines the knock of " };
const SENDS = { "m.image": "sends an image", "m.file": "sends a file", "m.audio": "sends a sound", "m.video": "sends a film" };

function membershipWords(line, room, place) {
  const prior = room.prior[place] > 0 ? room.line(room.prior[place]).membership : "";
  const whom = [line.state_key ?? ""];
  switch (line.membership) {
    case "join": return [prior === "join" ? "changes the profile" : "joins"];
    case "knock": return ["knocks"];
    case "invite": return ["invites ", whom];
    case "ban": return ["bans ", whom];
    case "leave": return line.sender === whom[0] ? [own(OWN_LEAVES, prior) ?? "leaves"] : [own(OTHER_LEAVES, prior) ?? "kicks ", whom];
    default: return ["sets the membership of ", whom];
  }
}

function levelChanges(old, now) {
  const changes = [];
  const level = (value) => (value === undefined ? "unset" : [typeof value === "string" ? value : JSON.stringify(value)]);
  const differ = (words, before, after) => before === after || changes.push([...words, " ", level(before), " to ", level(after)]);
  const keys = (name) => [...new Set([old, now].flatMap((content) => Object.keys(Object(own(content, name)))))];
  const ofUser = (content, user) => own(own(content, "users"), user) ?? own(content, "users_default") ?? 0;
  for (const user of keys("users")) differ(["level of ", [user]], ofUser(old, user), ofUser(now, user));
  for (const type of keys("events")) differ(["level to send ", [type]], own(own(old, "events"), type), own(own(now, "events"), type));
  for (const [key, [words, usual]] of Object.entries(NAMED_LEVELS)) differ([words], own(old, key) ?? usual, own(now, key) ?? usual);
  return changes;
}

function levelWords(line, room, place) {
  const before = room.levels[place];
  if (before === 0) {
    const users = Object.entries(Object(own(line.content, "users"))).slice(0, 3);
    return ["sets the levels", ...users.flatMap(([user, level], index) => [index ? ", " : ": ", [user], " ", [JSON.stringify(level)]])];
  }
  const changes = levelChanges(room.line(before).content, line.content);
  if (changes.length === 0) return ["sets the same levels again"];
  const told = changes.slice(0, 3).flatMap((parts, index) => (index ? ["; ", ...parts] : parts));
  return changes.length > 3 ? [...told, `; ${count(changes.length - 3, "more level")}`] : told;
}

const said = (words, text) => (typeof text === "string" && text !== "" ? [`${words}: `, [text]] : [words]);
const says = (words, key) => ({ content }) => said(words, own(content, key));

function messageWords({ content }) {
  const body = own(content, "body");
  const sends = own(SENDS, own(content, "msgtype"));
  if (sends) return said(sends, body);
  return typeof body === "string" ? ["\u201c", [body], "\u201d"] : ["sends a message"];
}

function redactionWords(line, room) {
  const [place] = room.redacts.get(line.event_id) ?? [];
  return place ? [`redacts ${place}, `, [room.line(place).type], " of ", [room.line(place).sender]] : ["redacts an event"];
}

const WORDS = {
  "m.room.create": () => ["creates the room"], "m.room.encrypted": () => ["sends an encrypted message"],
  "m.room.member": membershipWords, [LEVELS]: levelWords, "m.room.redaction": redactionWords, "m.room.message": messageWords,
  "m.reaction": ({ content }) => said("reacts", own(own(content, "m.relates_to"), "key")),
  "m.room.join_rules": says("sets the join rule", "join_rule"), "m.room.canonical_alias": says("sets the alias", "alias"),
  "m.room.topic": says("sets the topic", "topic"), "m.room.name": says("names the room", "name"),
  "m.room.history_visibility": says("sets who may read the history", "history_visibility"),
  "m.room.guest_access": says("sets whether guests may join", "guest_access"),
  "m.room.avatar": () => ["sets the picture"], "m.room.encryption": () => ["turns on encryption"],
  "m.room.pinned_events": () => ["sets the pinned events"], "m.room.server_acl": () => ["sets the access list of servers"],
  "m.room.third_party_invite": says("invites by an address elsewhere", "display_name"),
  "m.room.tombstone": says("closes the room for another", "replacement_room"),
};

function wordsOf(room, place) {
  const line = room.line(place);
  if (Object.hasOwn(WORDS, line.type)) return WORDS[line.type](line, room, place);
  if (line.state_key === undefined) return ["sends ", [line.type]];
  return line.state_key === "" ? ["sets ", [line.type]] : ["sets ", [line.type], " of ", [line.state_key]];
}

/** A time as the sender's server says it, in UTC; one that is no date as its number. */
function momentOf(milliseconds) {
  const moment = new Date(milliseconds);
  if (Number.isNaN(moment.getTime())) return { day: "", time: String(milliseconds), whole: String(milliseconds) };
  const [day, time] = moment.toISOString().slice(0, -1).split("T");
  return { day, time, whole: `${day} ${time} UTC` };
}

// ---- The list: only the rows in view are made.
const [ROW, LANE, BEYOND, LEAST_FOLD] = [28, 14, 12, 4];
const VERDICTS = [["accepted", "Accepted"], ["soft failed", "Soft failed"], ["rejected", "Rejected"]];

function dot(verdict, ends, x, y) {
  const colour = classOf(verdict);
  const circles = [[ends ? 8.5 : 6.5, "halo"], [ends ? 4 : 5, `fill ${colour}`], ...(ends ? [[7, `ring ${colour}`]] : [])];
  return circles.map(([r, name]) => draw("circle", { cx: x, cy: y, r, class: name }));
}

class List {
  constructor(room, page) {
    Object.assign(this, { room, page, box: byName("list"), ground: byName("rows"), found: null, active: 0 });
    this.lanes = new Lanes(room); this.made = new Map(); this.opened = new Set();
    const dayOf = ({ line }) => Math.floor(line.origin_server_ts / 86400000);
    this.dated = room.events.some((event) => dayOf(event) !== dayOf(room.events[0]));
    this.box.addEventListener("scroll", () => this.later());
    this.box.addEventListener("click", (click) => this.clicked(click));
    new ResizeObserver(() => this.later()).observe(this.box);
  }
  folds(place) {
    const { line, resolution = [] } = this.room.events[place - 1];
    return line.verdict === "accepted" && line.state_key === undefined && line.type !== "m.room.redaction" && !line.is_extremity
      && line.redacted_by.length === 0 && resolution.length === 0;
  }
  /** The rows: each event its own, but a run of accepted messages is one row until it is opened. */
  arrange() {
    this.rows = []; this.rowOf = new Int32Array(this.room.size + 1).fill(-1);
    if (this.found) this.found.forEach((place) => this.addEvent(place)); else this.addRuns();
    this.ground.style.height = `${this.rows.length * ROW}px`;
    this.ground.replaceChildren();
    this.made.clear();
    this.active = Math.max(0, Math.min(this.active, this.rows.length - 1)); this.show();
  }
  addEvent(place) { this.rowOf[place] = this.rows.length; this.rows.push({ first: place, last: place, fold: false }); }
  addRuns() {
    for (let place = 1, last; place <= this.room.size; place = last + 1) {
      for (last = place - 1; last < this.room.size && this.folds(last + 1);) last++;
      const run = last - place + 1 >= LEAST_FOLD;
      last = Math.max(last, place);
      if (run) { this.rowOf.fill(this.rows.length, place, last + 1); this.rows.push({ first: place, last, fold: true }); }
      if (!run || this.opened.has(place)) for (let one = place; one <= last; one++) this.addEvent(one);
    }
  }
  later() { if (!this.waits) requestAnimationFrame(() => this.show()); this.waits = true; }
  show() {
    this.waits = false;
    const from = Math.max(0, Math.floor(this.box.scrollTop / ROW) - BEYOND);
    const to = Math.min(this.rows.length, Math.ceil((this.box.scrollTop + this.box.clientHeight) / ROW) + BEYOND);
    for (const [index, element] of this.made) { if (index >= from && index < to) continue; element.remove(); this.made.delete(index); }
    for (let index = from; index < to; index++) if (!this.made.has(index)) this.made.set(index, this.rowElement(index));
    this.mark();
  }
  mark() {
    for (const [index, element] of this.made) {
      const { fold, first } = this.rows[index];
      element.classList.toggle("selected", !fold && first === this.page.selected);
      element.classList.toggle("active", index === this.active);
      element.classList.toggle("pinned", !fold && first === this.page.pinned);
      element.setAttribute("aria-selected", String(!fold && first === this.page.selected));
    }
    if (this.made.has(this.active)) this.box.setAttribute("aria-activedescendant", `row-${this.active}`);
    else this.box.removeAttribute("aria-activedescendant");
  }
  rowElement(index) {
    const row = this.rows[index];
    const element = make("div", { class: "row", role: "option", id: `row-${index}` });
    [element.ariaPosInSet, element.ariaSetSize] = [index + 1, this.rows.length];
    element.style.transform = `translateY(${index * ROW}px)`;
    if (row.fold) this.fillFold(element, row); else this.fillEvent(element, row.first);
    this.ground.append(element);
    return element;
  }
  fillEvent(element, place) {
    const line = this.room.line(place);
    const { day, time, whole } = momentOf(line.origin_server_ts);
    const words = wordsOf(this.room, place);
    const redacted = line.redacted_by.length > 0;
    const cell = (name, title, ...parts) => element.append(make("span", { class: name, title: visible(title) }, ...parts));
    element.dataset.place = place;
    element.append(make("span", { class: "number" }, place), this.graph({ first: place, last: place, fold: false }));
    cell(this.dated ? "time dated" : "time", whole, this.dated && day ? `${day} ${time.slice(0, 5)}` : time);
    cell("sender", line.sender, [line.sender]);
    cell(redacted ? "words struck" : "words", plain(words), ...words);
    const because = line.verdict === "accepted" ? "" : `: ${line.because}`;
    if (because) cell(`said ${classOf(line.verdict)}`, `${line.verdict}${because}`, [`${line.verdict}${because}`]);
    cell("type", line.type, [line.type]);
    const marks = `${line.verdict}${visible(because)}${line.is_extremity ? ", forward extremity" : ""}${redacted ? ", redacted" : ""}`;
    element.setAttribute("aria-label", `${place}, ${visible(line.sender)} ${plain(words)}, ${marks}`);
  }
  fillFold(element, row) {
    const senders = new Set(this.room.events.slice(row.first - 1, row.last).map(({ line }) => line.sender));
    const open = this.opened.has(row.first);
    const parts = [`${open ? "\u25be" : "\u25b8"} ${count(row.last - row.first + 1, "message")} of `];
    parts.push(...[...senders].slice(0, 3).flatMap((sender, index) => [index ? ", " : "", [sender]]));
    if (senders.size > 3) parts.push(` and ${count(senders.size - 3, "other")}`);
    element.classList.add("fold"); element.dataset.fold = row.first;
    [element.ariaExpanded, element.ariaLabel] = [String(open), plain(parts)];
    element.append(make("span", { class: "number" }, open ? "" : `${row.first}\u2026`), this.graph(row, open));
    element.append(make("span", { class: "words", title: plain(parts) }, ...parts));
  }
  /** A row's part of the graph. The head of an opened run only passes the lanes on. */
  graph(row, open = false) {
    const at = (column) => 10 + column * LANE;
    const picture = draw("svg", { width: at(this.lanes.width - 1) + 10, height: ROW, "aria-hidden": "true" });
    const line = (lane, path) => picture.append(draw("path", { class: `lane${lane % 6}`, d: path }));
    const each = (mask, act) => { for (let lane = 0; mask >>> lane; lane++) if ((mask >>> lane) & 1) act(lane); };
    const past = (lane) => line(lane, `M${at(lane)} 0V${ROW}`);
    if (open) { each(this.lanes.above(row.first), past); return picture; }
    const [mine, middle] = [at(this.lanes.column[row.last]), ROW / 2];
    const curve = (from, to, y, bend) => `M${from} ${y}C${from} ${y + bend} ${to} ${y + bend} ${to} ${y + middle}`;
    const around = this.found ? { into: 0, out: 0, past: 0 } : this.lanes.around(row.first, row.last);
    const colour = (lane) => Math.max(lane, this.lanes.column[row.last]);
    each(around.past, past);
    each(around.into, (lane) => line(colour(lane), curve(at(lane), mine, 0, middle / 2)));
    each(around.out, (lane) => line(colour(lane), curve(mine, at(lane), middle, middle / 2)));
    const { verdict, is_extremity: ends } = this.room.line(row.first);
    if (row.fold) picture.append(draw("circle", { cx: mine, cy: middle, r: 5.5, class: "folded" }));
    else picture.append(...dot(verdict, ends, mine, middle));
    return picture;
  }
  clicked(click) {
    const element = click.target.closest(".row");
    if (!element) return;
    this.active = Number(element.id.slice(4));
    if (element.dataset.fold) this.toggle(Number(element.dataset.fold));
    else if (click.shiftKey) this.page.pin(Number(element.dataset.place));
    else this.page.select(Number(element.dataset.place), true);
  }
  toggle(first) { if (!this.opened.delete(first)) this.opened.add(first); this.arrange(); }
  /** Makes the event's row the active one, in view: its run is opened. */
  reveal(place) {
    const row = this.rows[this.rowOf[place]];
    if (row?.fold) this.toggle(row.first);
    if (row) this.go(this.rowOf[place]); else this.mark();
  }
  go(index) {
    this.active = Math.max(0, Math.min(index, this.rows.length - 1));
    const lowest = (this.active + 2) * ROW - this.box.clientHeight;
"##
}
