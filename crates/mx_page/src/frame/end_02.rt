// A part of the page's frame, written by page/write_frame.py.

pub(crate) fn text() -> &'static str {
    r##"    if (this.box.scrollTop > this.active * ROW) this.box.scrollTop = Math.max(0, (this.active - 1) * ROW);
    else if (this.box.scrollTop < lowest - ROW) this.box.scrollTop = lowest;
    this.show();
  }
  pageOfRows() { return Math.max(1, Math.floor(this.box.clientHeight / ROW) - 1); }
}

// ---- The panel: why, the states, and two states compared.
const CHECKS = ["auth events", "state before", "current state"];
const MEANINGS = {
  "accepted": "Every check allows it.",
  "auth events": "The events that it cites as its authorization are not the right ones, or do not allow it. It changes nothing.",
  "state before": "The state before it, at its place in the graph, does not allow it. It changes nothing.",
  "current state": "The state before it allows it; the room\u2019s current state, when it came, does not. So clients do not see it.",
};
const TABS = [["why", "Why"], ["state", "State"], ["compare", "Compare"]];
const [FIRST_TYPES, MOST_ENTRIES] = [["m.room.create", LEVELS, "m.room.join_rules"], 300];

class Panel {
  constructor(room, page) {
    Object.assign(this, { room, page, box: byName("panel"), tab: "why" });
    [this.only, this.sides] = [{ state: false, compare: true }, { first: "after", second: "after" }];
  }
  show() {
    const place = this.page.selected;
    const line = this.room.line(place);
    const ends = line.is_extremity ? ", forward extremity" : "";
    const current = line.in_current_state ? ", in the current state" : "";
    this.body = make("div", { role: "tabpanel", "aria-labelledby": `tab-${this.tab}` });
    this.box.replaceChildren(make("h2", {}, `${place} `, [line.sender], " ", ...wordsOf(this.room, place)),
      make("p", { class: "soft" }, [line.type], `, ${momentOf(line.origin_server_ts).whole}${ends}${current}`), this.tabs(), this.body);
    if (this.tab === "why") this.why(place, line);
    else if (this.tab === "state") this.difference(this.room.stateBefore(place), this.room.stateAfter(place), ["Before", "After"]);
    else this.compare(this.page.pinned || 1, place);
  }
  tabs() {
    const list = make("div", { class: "tabs", role: "tablist", "aria-label": "What is shown of the event" });
    for (const [name, words] of TABS) {
      const chosen = this.tab === name;
      const options = { type: "button", role: "tab", id: `tab-${name}`, "aria-selected": String(chosen), tabindex: chosen ? 0 : -1 };
      const tab = make("button", options, words);
      tab.addEventListener("click", () => this.choose(name));
      list.append(tab);
    }
    list.addEventListener("keydown", (key) => {
      const step = { ArrowRight: 1, ArrowLeft: 2 }[key.key];
      if (step) this.choose(TABS[(TABS.findIndex(([name]) => name === this.tab) + step) % 3][0]);
    });
    return list;
  }
  choose(name) { this.tab = name; this.show(); byName(`tab-${name}`).focus(); }
  /** An event as a link: its verdict's dot, its place, its sender, and what it does. */
  link(place) {
    const { sender, verdict, event_id: id } = this.room.line(place);
    const words = wordsOf(this.room, place);
    const mark = make("span", { class: `dot ${classOf(verdict)}`, role: "img", "aria-label": verdict });
    const title = `${visible(sender)} ${plain(words)} (${verdict}) ${id}`;
    return make("a", { class: "event", href: `#${id}`, title, data: { event: id } }, mark,
      make("span", { class: "text" }, `${place} `, [sender], " ", ...words));
  }
  linkOf(id) {
    if (id === null) return make("span", { class: "soft" }, "none");
    const place = this.room.place(id);
    return place > 0 ? this.link(place) : make("span", { class: "id soft", title: "not in this audit" }, [id]);
  }
  title(...words) { this.body.append(make("h3", {}, ...words)); }
  text(...words) { this.body.append(make("p", {}, ...words)); }
  table(name, heads, rows) {
    const head = make("thead", {}, make("tr", {}, ...heads.map((words) => make("th", { scope: "col" }, words))));
    return make("table", { class: name }, head, make("tbody", {}, ...rows));
  }
  keyCell(type, stateKey) { return make("td", {}, [type], stateKey === "" ? null : make("div", { class: "soft" }, [stateKey])); }
  why(place, line) {
    this.verdict(line);
    if (this.room.events[place - 1].resolution) this.resolution(place, this.room.events[place - 1].resolution);
    this.judgedBy(line); this.content(line); this.links(place, line); this.facts(line);
  }
  verdict(line) {
    const failed = CHECKS.indexOf(line.check);
    const steps = CHECKS.map((check, index) => {
      if (failed < 0 || index < failed) return make("li", { class: "ok" }, `\u2713 ${check}`);
      return index === failed ? make("li", { class: "failed" }, `\u2717 ${check}`) : make("li", { class: "left" }, `\u2013 ${check}`);
    });
    const name = VERDICTS.find(([verdict]) => verdict === line.verdict)?.[1] ?? line.verdict;
    const rule = line.rule === undefined ? [] : [" Rule ", make("span", { class: "rule" }, [line.rule]), "."];
    this.body.append(make("div", { class: `verdict ${classOf(line.verdict)}` },
      make("p", { class: "sentence" }, name, ...(line.because === undefined ? [] : [": ", [line.because]])),
      make("p", {}, MEANINGS[line.check ?? "accepted"] ?? "", ...rule),
      make("ol", { class: "checks", "aria-label": "Checks" }, ...steps)));
  }
  judgedBy(line) {
    if (line.judged_by.length === 0) return;
    const which = { "auth events": "its auth events", "current state": "the current state" }[line.check] ?? "the state before it";
    this.title(`What the rules looked at, in ${which}`);
    const rows = line.judged_by.map((entry) => make("tr", { data: { judged: entry.event_id ?? "" } },
      this.keyCell(entry.type, entry.state_key), make("td", {}, this.linkOf(entry.event_id), ...this.read(line, entry))));
    this.body.append(this.table("judged-by", ["Key", "Event there, and what it says"], rows));
  }
  read(line, { membership, join_rule: joinRule, level, level_needed: needed }) {
    const told = (...parts) => [make("div", {}, ...parts)];
    if (membership !== undefined) return told("membership: ", [membership]);
    if (joinRule !== undefined) return told("join rule: ", [joinRule]);
    if (level === undefined) return [];
    return told([line.sender], ` has level ${level}`, needed === undefined ? "" : `; this event asks for ${needed}`);
  }
  /** The resolution step by step: what was in conflict and what stands, and what was checked in which order. */
  resolution(place, lines) {
    const sides = [...this.room.prev[place]].sort((one, other) => one - other);
    const conflicts = new Map();
    for (const { conflicted, type, state_key: stateKey, event_id: id } of lines.filter((line) => line.conflicted !== undefined)) {
      const key = keyOf(type, stateKey);
      conflicts.set(key, [...(conflicts.get(key) ?? []), { conflicted, id }]);
    }
    this.title("How the states after its prev events were resolved");
    const keys = conflicts.size > 0 ? count(conflicts.size, "key") : "no key";
    this.text(`The states after its ${count(sides.length, "prev event")} differ at ${keys}. \u2713 is what stands before this event.`);
    if (conflicts.size === 0) return;
    const state = this.room.stateBefore(place);
    const rows = [...conflicts].flatMap(([key, held]) => this.conflict(key, held, state.get(key) ?? 0, sides));
    this.body.append(this.table("conflicts", ["In the state", "stood"], rows));
    this.text("In this order they were checked, each against what stood so far, and put in where allowed:");
    this.body.append(make("ol", { class: "steps" }, ...lines.filter((line) => line.allowed !== undefined).map((line) => this.step(line))));
  }
  conflict(key, held, winner, sides) {
    const [type, stateKey] = JSON.parse(key);
    const stands = winner > 0 ? this.room.id(winner) : null;
    const from = ({ conflicted }) => (sides[conflicted] ? `after ${sides[conflicted]}` : `number ${conflicted}`);
    const row = (words, id, sign, name) => make("tr", { class: name, data: { held: id ?? "" } }, make("td", { class: "soft" }, words),
      make("td", {}, make("span", { class: sign === "\u2713" ? "accepted" : "rejected" }, `${sign} `), this.linkOf(id)));
    const rows = held.map((one) => row(from(one), one.id, one.id === stands ? "\u2713" : "\u2717", one.id === stands ? "stands" : "lost"));
    if (!held.some(({ id }) => id === stands)) rows.push(row("in the end", stands, "\u2713", "stands"));
    const head = make("th", { colspan: 2, scope: "rowgroup" }, [type], " ", make("span", { class: "soft" }, [stateKey]));
    return [make("tr", { class: "key", data: { type, stateKey } }, head), ...rows];
  }
  step({ allowed, event_id: id, order, because, rule }) {
    const sign = make("span", { class: allowed ? "accepted" : "rejected" }, allowed ? "\u2713 " : "\u2717 ");
    const why = allowed ? null : make("span", { class: "why" }, "not allowed: ", [because], " (", [rule], ")");
    return make("li", { class: allowed ? "allowed" : "not-allowed" }, sign, this.linkOf(id), make("i", {}, ` ${order}`), why);
  }
  content({ content, content_cut: cut, content_hash: hash }) {
    this.title(content === undefined ? "Content (the first 1,024 bytes of its text)" : "Content");
    const text = content === undefined ? cut ?? "" : JSON.stringify(content, null, 2);
    this.body.append(make("pre", { dir: "auto", tabindex: 0 }, visible(text, "\n")));
    if (hash === "bad") this.text("Its content hash does not hold: it came with another content, and is kept redacted.");
  }
  links(place, line) {
    const ids = (places = []) => places.map((one) => this.room.id(one));
    const lists = { "Prev events": line.prev_events, "Following events": ids(this.room.next[place]), "Auth events": line.auth_events,
      "Redacted by": line.redacted_by, "Redacts": ids(this.room.redacts.get(line.event_id)) };
    for (const [words, list] of Object.entries(lists).filter(([, one]) => one.length > 0)) {
      this.title(words);
      this.body.append(make("ul", { class: "events-list", data: { links: words } }, ...list.map((id) => make("li", {}, this.linkOf(id)))));
    }
  }
  facts(line) {
    const stateKey = line.state_key === undefined ? "none: it is no state event" : line.state_key === "" ? "empty" : [line.state_key];
    const facts = { "Event ID": make("span", { class: "id" }, [line.event_id]), "Type": [line.type], "Sender": [line.sender],
      "State key": stateKey, "Depth": line.depth, "Content hash": line.content_hash };
    this.title("The event");
    const pairs = Object.entries(facts).flatMap(([name, value]) => [make("dt", {}, name), make("dd", {}, value)]);
    this.body.append(make("dl", { class: "facts" }, ...pairs));
  }
  compare(first, second) {
    const picked = [...this.picker("first", "From the state", first), ...this.picker("second", "to the state", second)];
    this.body.append(make("div", { class: "compare" }, ...picked));
    this.text(make("span", { class: "soft" }, "The key c, or Shift and a click on a row, picks the first event; a click the second."));
    this.text(this.link(first)); this.text(this.link(second));
    const state = (side, place) => (this.sides[side] === "before" ? this.room.stateBefore(place) : this.room.stateAfter(place));
    const name = (side, place) => `${this.sides[side] === "before" ? "Before" : "After"} ${place}`;
    this.difference(state("first", first), state("second", second), [name("first", first), name("second", second)]);
  }
  picker(side, words, place) {
    const options = ["before", "after"].map((name) => make("option", { value: name }, name));
    const choice = make("select", { id: `${side}-side`, "aria-label": `${words} before or after` }, ...options);
    const number = make("input", { type: "number", min: 1, max: this.room.size, value: place, id: `${side}-event`, "aria-label": "event" });
    choice.value = this.sides[side];
    choice.addEventListener("change", () => { this.sides[side] = choice.value; this.show(); });
    number.addEventListener("change", () => {
      const wanted = Math.max(1, Math.min(this.room.size, Math.trunc(Number(number.value)) || 1));
      if (side === "first") this.page.pin(wanted); else this.page.select(wanted, true);
    });
    return [make("span", {}, words), choice, number];
  }
  /** Two states as one table; entries that differ come first, and are marked. */
  difference(before, after, heads) {
    const tab = this.tab;
    const keys = [...new Set([...before.keys(), ...after.keys()])];
    const entries = keys.map((key) => ({ key, pair: JSON.parse(key), before: before.get(key), after: after.get(key) }));
    const changed = entries.filter((entry) => entry.before !== entry.after);
    const only = make("input", { type: "checkbox", id: "only-differs" });
    only.checked = this.only[tab];
    only.addEventListener("change", () => { this.only[tab] = only.checked; this.show(); });
    const sizes = [before, after].map((state, index) => `${heads[index]}: ${count(state.size, "entry", "entries")}`).join("; ");
    const many = changed.length === 1 ? "1 differs" : `${changed.length === 0 ? "none" : shown(changed.length)} differ`;
    this.text(`${sizes}; ${many}.`);
    this.body.append(make("label", {}, only, " only what differs"));
    const order = ({ pair: [type] }) => (type === "m.room.member" ? 9 : (FIRST_TYPES.indexOf(type) + 9) % 9);
    const differs = (entry) => Number(entry.before !== entry.after);
    const listed = (only.checked ? changed : entries).sort((one, other) => differs(other) - differs(one) || order(one) - order(other)
      || (one.key < other.key ? -1 : 1));
    this.entries(listed, heads, MOST_ENTRIES);
  }
  entries(listed, heads, most) {
    const table = this.table("states", ["Key", ...heads], listed.slice(0, most).map((entry) => this.entry(entry)));
    this.body.append(table);
    if (listed.length <= most) return;
    const more = make("button", { type: "button", id: "all-entries" }, `Show all ${shown(listed.length)}`);
    this.body.append(more);
    more.addEventListener("click", () => { table.remove(); more.remove(); this.entries(listed, heads, Infinity); });
  }
  entry({ pair: [type, stateKey], before, after }) {
    const id = (place) => (place === undefined ? "" : this.room.id(place));
    const cell = (place) => make("td", {}, place === undefined ? this.linkOf(null) : this.link(place));
    const same = before === after;
    const cells = same ? [cell(before), make("td", { class: "soft" }, "the same")] : [cell(before), cell(after)];
    const data = { type, stateKey, before: id(before), after: id(after) };
    return make("tr", { class: same ? "same" : "differs", data }, this.keyCell(type, stateKey), ...cells);
  }
}

// ---- Finding.
const FIELDS = { text: "find-text", verdict: "find-verdict", type: "find-type", sender: "find-sender", key: "find-key" };
class Finder {
  constructor(room, page) {
    Object.assign(this, { room, page, texts: [] });
    const types = this.counted((line) => line.type).map(([type, many]) => [type, `${visible(type).slice(0, 60)} (${shown(many)})`]);
    const offer = (id, pairs) => byName(id).append(...pairs.map(([value, words]) => make("option", { value }, words)));
    offer(FIELDS.verdict, [["", "Every verdict"], ...VERDICTS, ["not accepted", "Not accepted"]]);
    offer(FIELDS.type, [["", "Every type"], ...types]);
    offer("senders", this.counted((line) => line.sender).map(([sender]) => [sender, ""]));
    offer("keys", this.counted((line) => line.state_key ?? "").map(([key]) => [key, ""]));
    byName("filter").addEventListener("input", () => { clearTimeout(this.timer); this.timer = setTimeout(() => this.find(), 80); });
    byName("filter").addEventListener("submit", (submit) => submit.preventDefault());
    byName("clear").addEventListener("click", () => this.set(Object.fromEntries(Object.keys(FIELDS).map((name) => [name, ""]))));
    byName("next").addEventListener("click", () => page.nextNotAccepted(1));
  }
  counted(read) {
    const counts = new Map();
    for (const { line } of this.room.events) counts.set(read(line), (counts.get(read(line)) ?? 0) + 1);
    return [...counts].filter(([value]) => value !== "").sort((one, other) => other[1] - one[1]).slice(0, 300);
  }
  set(wanted) { for (const [name, value] of Object.entries(wanted)) byName(FIELDS[name]).value = value; this.find(); }
  text(place) {
    const { event_id: id, sender, type, state_key: key = "", because = "", content, content_cut: cut } = this.room.line(place);
    const parts = [id, sender, type, key, because, cut ?? JSON.stringify(content), plain(wordsOf(this.room, place))];
    return (this.texts[place] ??= parts.join("\n").toLowerCase());
  }
  fits(place, wanted) {
    const line = this.room.line(place);
    const holds = (value = "", part) => value.toLowerCase().includes(part.toLowerCase());
    if (wanted.verdict === "not accepted" ? line.verdict === "accepted" : ![line.verdict, ""].includes(wanted.verdict)) return false;
    if (![line.type, ""].includes(wanted.type) || !holds(line.sender, wanted.sender) || !holds(line.state_key, wanted.key)) return false;
    return wanted.text === "" || (this.texts[place] ?? this.text(place)).includes(wanted.text.toLowerCase());
  }
  find() {
    const wanted = Object.fromEntries(Object.entries(FIELDS).map(([name, id]) => [name, byName(id).value]));
    const all = Array.from({ length: this.room.size }, (_, index) => index + 1);
    const found = Object.values(wanted).every((value) => value === "") ? null : all.filter((place) => this.fits(place, wanted));
    byName("found").textContent = found ? `${shown(found.length)} of ${count(this.room.size, "event")}` : "";
    for (const button of byName("counts").children) button.ariaPressed = String(button.dataset.verdict === wanted.verdict);
    this.page.found(found);
  }
}

// ---- The page.
class Page {
  constructor(room) {
    Object.assign(this, { room, pinned: 0, selected: 0 });
    this.panel = new Panel(room, this); this.list = new List(room, this); this.finder = new Finder(room, this);
    this.head(); this.legend(); this.refused(); this.list.arrange();
    const first = room.events.findIndex(({ line }) => line.verdict !== "accepted");
    this.select(this.fromAddress() || (first < 0 ? room.size : first + 1));
    window.addEventListener("hashchange", () => this.fromAddress() && this.select(this.fromAddress()));
    document.addEventListener("keydown", (key) => this.key(key));
  }
  head() {
    const { sender, version } = this.room.line(1);
    const name = this.room.name ? ["Room ", [this.room.name]] : ["Room of ", [sender]];
    put(byName("title"), ...name).title = plain(name); document.title = `${plain(name)}: audit`;
    byName("about").textContent = `version ${version} \u00b7 ${count(this.room.size, "event")}`;
    for (const [verdict] of VERDICTS) {
      const many = this.room.events.filter(({ line }) => line.verdict === verdict).length;
      const mark = make("span", { class: `dot ${classOf(verdict)}` });
      const button = make("button", { type: "button", data: { verdict }, title: "Show only these" }, mark, ` ${shown(many)} ${verdict}`);
      button.addEventListener("click", () => this.finder.set({ verdict: button.ariaPressed === "true" ? "" : verdict }));
      byName("counts").append(button);
    }
  }
  legend() {
    const picture = (...of) => draw("svg", { width: 17, height: 17, "aria-hidden": "true" }, ...dot(...of, 8.5, 8.5));
    const items = [[picture("accepted", false), "accepted"],
      [picture("soft failed", false), "soft failed: allowed at its place, not by the room\u2019s current state"],
      [picture("rejected", false), "rejected: not allowed at its place"], [picture("accepted", true), "forward extremity"],
      [make("s", {}, "words"), "redacted"]];
    byName("legend").append(...items.map((parts) => make("li", {}, ...parts)));
    const keys = "up, down: events; left, right: along the graph (Shift: its last branch); n, N: not accepted; /: find; c: compare";
    byName("legend").append(make("li", { class: "keys" }, keys));
  }
  refused() {
    const items = this.room.refused.map(({ sender = "?", type = "?", origin = "?", event_id: id = "", ...line }) => make("li", {}, [sender],
      " ", [type], " from ", [origin], ": ", make("b", { class: "refused" }, [whyRefused(line)]), " ", [id]));
    if (items.length === 0) return;
    const words = `${count(items.length, "refused event")}, kept nowhere`; byName("refused").className = "refused-list";
    byName("refused").append(make("details", {}, make("summary", {}, words), make("ul", {}, ...items)));
  }
  fromAddress() { return this.room.place(location.hash.slice(1).replace(/^%24/, "$")); }
  /** Selects an event; `past` puts it into the history of the tab too. */
  select(place, past = false) {
    const again = place === this.selected;
    const address = `#${this.room.id(place)}`;
    this.selected = place;
    if (location.hash !== address) history[past ? "pushState" : "replaceState"](null, "", address);
    this.list.reveal(place);
    this.panel.show();
    if (!again) this.panel.box.scrollTop = 0;
  }
  pin(place) { this.pinned = place; this.panel.tab = "compare"; this.list.mark(); this.panel.show(); }
  found(places) {
    this.list.found = places;
    this.list.arrange();
    if (places === null || places.includes(this.selected)) this.list.reveal(this.selected);
    else if (places.length > 0) this.select(places[0]);
  }
  nextNotAccepted(step) {
    const { size } = this.room;
    for (let gone = 1; gone <= size; gone++) {
      const place = ((this.selected - 1 + step * gone + size) % size) + 1;
      if (this.list.rowOf[place] >= 0 && this.room.line(place).verdict !== "accepted") return void this.select(place, true);
    }
  }
  key(key) {
    if (key.ctrlKey || key.metaKey || key.altKey) return;
    const writes = key.target.closest("input, select");
    if (key.key === "Escape" && writes) byName("list").focus();
    const acts = {
      ArrowDown: () => this.move(1), ArrowUp: () => this.move(-1), PageDown: () => this.move(this.list.pageOfRows()),
      PageUp: () => this.move(-this.list.pageOfRows()), Home: () => this.move(-Infinity), End: () => this.move(Infinity),
      ArrowLeft: () => this.along(this.room.prev[this.selected], key.shiftKey), Enter: () => this.enter(),
      ArrowRight: () => this.along(this.room.next[this.selected], key.shiftKey),
    };
    const anywhere = { n: () => this.nextNotAccepted(1), N: () => this.nextNotAccepted(-1), c: () => this.pin(this.selected),
      "/": () => byName(FIELDS.text).focus() };
    const act = own(anywhere, key.key) ?? (key.target.closest("#panel, button, summary") ? undefined : own(acts, key.key));
    if (writes || !act) return;
    key.preventDefault();
    act();
  }
  move(step) {
    this.list.go(this.list.active + step); const row = this.list.rows[this.list.active];
    if (row && !row.fold) this.select(row.first);
  }
  along(places, last) { if (places.length > 0) this.select(places.at(last ? -1 : 0)); }
  enter() { const row = this.list.rows[this.list.active]; if (row?.fold) this.list.toggle(row.first); else this.panel.box.focus(); }
}

function start() {
  const text = byName("room-data").textContent;
  const data = text.trim() === "" ? { events: [] } : JSON.parse(text);
  if (data.events.length === 0) byName("panel").append("There is no event of a room in this page.");
  else new Page(new Room(data));
  document.documentElement.dataset.ready = "yes";
}
start();
</script>
</body>
</html>
"##
}
