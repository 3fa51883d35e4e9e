// The page that draws a ride, up to its data: pages/ride.html as it stands there. Made by tools/make_page; edit the page.

/// The page up to its data.
pub static PAGE: &str = "\
<!DOCTYPE html>\n<html lang=\"en\">\n<head>\n<meta charset=\"utf-8\">\n<meta http-equiv=\"Content-Security-Policy\" content=\"def\
ault-src 'none'; script-src 'sha256-hg8jirqKVcHaK496wq3H/Hsw0GlTfT6z7NfQrhi+xCg='; style-src 'sha256-j/5kqt8PAGhZ17b8Hjj7tWO8Cedq\
04pm8xll+t7Sbdc=' 'sha256-4Qvgk+qGB9M561HdKdqCXeovKxOnkkAN9pCuV26XKfc='; base-uri 'none'; form-action 'none'\">\n<meta name=\"vie\
wport\" content=\"width=device-width, initial-scale=1\">\n<meta name=\"color-scheme\" content=\"light dark\">\n<title>ride</title\
>\n<style id=\"look\">\n:root {\n  --ink: #1a1a1a; --muted: #595959; --paper: #fff; --loss: #a63200; --power: #1f5c99; --light: #\
fff;\n  --wrong: #454545; --line: #6b6b6b; --edge: #7d8b99; --tint: #e9eef4; --band: #fbe3d8; --hair: #b5b5b5; --grid: #e4e4e4;\n\
}\n@media screen and (prefers-color-scheme: dark) {\n  :root {\n    --ink: #eaeaea; --muted: #a6a6a6; --paper: #15181b; --loss: #\
ff9566; --power: #7db8f0; --light: #101316;\n    --wrong: #c4c4c4; --line: #9a9a9a; --edge: #73818f; --tint: #26303a; --band: #44\
281c; --hair: #5c6166; --grid: #2c3136;\n  }\n}\n.ride { font: 12px system-ui, sans-serif; font-variant-numeric: tabular-nums; }\
\n.ride .ink { color: var(--ink); } .ride .muted { color: var(--muted); } .ride .paper { color: var(--paper); }\n.ride .loss { co\
lor: var(--loss); } .ride .power { color: var(--power); } .ride .light { color: var(--light); }\n.ride .wrong { color: var(--wron\
g); } .ride .line { color: var(--line); } .ride .edge { color: var(--edge); }\n.ride .tint { color: var(--tint); } .ride .band { \
color: var(--band); } .ride .hair { color: var(--hair); } .ride .grid { color: var(--grid); }\n.ride { color: var(--ink); }\n.rid\
e rect, .ride text { fill: currentColor; }\n.ride text { pointer-events: none; white-space: pre; }\n.ride .bars path { stroke: cu\
rrentColor; }\n.ride .title { font-size: 14px; font-weight: 600; }\n.ride .b { font-weight: 600; }\n.ride.narrow .name { font-siz\
e: 11px; }\n.ride .halo { paint-order: stroke; stroke: var(--paper); stroke-width: 4px; stroke-linejoin: round; }\n.ride .mark { \
fill: var(--loss); stroke: var(--loss); }\n.ride .unasked.mark { fill: var(--paper); stroke: var(--muted); }\n.ride circle { fill\
: none; stroke: currentColor; stroke-width: 2; }\n.ride circle.paper { stroke-width: 5; }\n</style>\n<style>\n:root { color-schem\
e: light dark; }\nbody { margin: 8px auto 24px; padding: 0 8px; font: 14px/1.45 system-ui, sans-serif; color: var(--ink); backgro\
und: var(--paper); }\nh1 { position: absolute; clip-path: inset(50%); width: 1px; height: 1px; overflow: hidden; white-space: now\
rap; }\nh2 { font-size: 16px; margin: 24px 0 8px; }\nbutton, .tools label { font: inherit; color: inherit; }\nbutton { background\
: var(--paper); border: 1px solid var(--edge); border-radius: 4px; padding: 2px 9px; min-height: 28px; cursor: pointer; }\nbutton\
:disabled { color: var(--muted); border-color: var(--grid); cursor: default; }\na { color: inherit; }\n:focus-visible { outline: \
2px solid var(--power); outline-offset: 1px; }\n[hidden] { display: none !important; }\n.tools { display: flex; flex-wrap: wrap; \
gap: 6px 8px; align-items: center; margin: 0 0 4px; }\n.tools .gap { flex: 1; }\n.tools label { white-space: nowrap; }\n.tools.be\
low { margin: 4px 0 0; }\n.keys { color: var(--muted); font-size: 12px; }\nkbd { font: inherit; border: 1px solid var(--grid); bo\
rder-radius: 3px; padding: 0 4px; }\n#picture { display: block; width: 100%; height: auto; touch-action: pan-y; cursor: crosshair\
; user-select: none; -webkit-user-select: none; }\n\n#values { border: 1px solid var(--grid); border-radius: 4px; padding: 6px 10\
px; margin: 8px 0; background: var(--paper); }\n#values h2 { margin: 0 0 4px; font-size: 14px; }\n#values dl { margin: 0; columns\
: 4 220px; font-size: 12px; }\n#values div { break-inside: avoid; overflow-wrap: anywhere; }\n#values dt { display: inline; color\
: var(--muted); }\n#values dd { display: inline; margin: 0; }\n#values .loud dd { font-weight: 600; }\n#values button { float: ri\
ght; }\ntable { border-collapse: collapse; width: 100%; font-variant-numeric: tabular-nums; }\nth, td { text-align: left; vertica\
l-align: top; padding: 4px 12px 4px 0; border-bottom: 1px solid var(--grid); }\nth { font-weight: 600; }\ntd button { all: unset; \
cursor: pointer; text-decoration: underline; text-underline-offset: 2px; }\ntd button:focus-visible { outline: 2px solid var(--po\
wer); }\ntbody tr { cursor: pointer; }\ntbody tr:hover, tr[aria-current] { background: var(--tint); }\n.num { text-align: right; \
}\n.line { font-weight: 600; }\ntr.quiet td { color: var(--muted); font-weight: 400; }\npre { overflow: auto; max-height: 60vh; }\
\n#live { position: absolute; clip-path: inset(50%); width: 1px; height: 1px; overflow: hidden; }\n@media (max-width: 699.9px) {\
\n  .wide { display: none; }\n  #values { position: sticky; bottom: 4px; max-height: 24vh; overflow: auto; }\n  #values dl { disp\
lay: flex; flex-wrap: wrap; gap: 2px 14px; }\n  #values .loud { order: -1; }\n}\n@media print {\n  .tools, .keys, #values, #repor\
t-box, .pages { display: none !important; }\n  body { margin: 0; }\n  tr { break-inside: avoid; }\n}\n</style>\n<script type=\"mo\
dule\">\n// ---- What the page knows: how a state looks. Names, values and texts stand in the data. ----\n\n// The rectangles of \
a shape in a lane of 14 px: offset and height.\nconst SHAPES = {\n  none: [], line: [[6, 2]], hair: [[13, 1]], box: [[0, 14]], up\
per: [[0, 8], [13, 1]], lower: [[0, 1], [6, 8]],\n  rails: [[0, 5], [9, 5]], bridge: [[0, 1], [6, 2]], arch: [[0, 1], [5, 9]], st\
ripes: [[0, 2], [4, 2], [8, 2], [12, 2]],\n};\n\n// The layers of an ink: colour, and how far from the edge of its rectangles.\nc\
onst INKS = {\n  hair: [[\"hair\", 0]], line: [[\"line\", 0]], wrong: [[\"wrong\", 0]], power: [[\"power\", 0]], ink: [[\"ink\", \
0]], values: [[\"edge\", 0]],\n  value: [[\"edge\", 0], [\"tint\", 1]], hollow: [[\"muted\", 0], [\"paper\", 1.5]],\n  forced: [[\
\"ink\", -1], [\"power\", 2]], forcedOff: [[\"ink\", -1], [\"paper\", 2]],\n};\n\n// Shape, ink, words in the legend and states, \
from the quietest to the loudest. Of two pixels the loudest state is drawn.\nconst STATES = [\n  [\"none\", \"hair\", \"\", \"gap\
\"],\n  [\"hair\", \"hair\", \"\", \"healthy\", \"free\", \"off\", \"granted\", \"normal\"],\n  [\"line\", \"line\", \"made, or i\
n order\", \"agree\", \"made\"],\n  [\"box\", \"value\", \"a value of a source\", \"value\"],\n  [\"box\", \"values\", \"many val\
ues\", \"values\"],\n  [\"bridge\", \"line\", \"made, looked past\", \"made, looked past\"],\n  [\"stripes\", \"ink\", \"side has \
failed\", \"failed\"],\n  [\"arch\", \"line\", \"open, looked past\", \"open, looked past\"],\n  [\"box\", \"hollow\", \"\", \"in\
spection\", \"emergency\"],\n  [\"box\", \"hollow\", \"not asked to run\", \"not asked\"],\n  [\"box\", \"power\", \"full\", \"fu\
ll\"],\n  [\"upper\", \"power\", \"up\", \"up\"],\n  [\"lower\", \"power\", \"down\", \"down\"],\n  [\"hair\", \"hair\", \"alarm\
\", \"off alarm\"],\n  [\"box\", \"power\", \"alarm\", \"full alarm\"],\n  [\"upper\", \"power\", \"alarm\", \"up alarm\"],\n  [\
\"lower\", \"power\", \"alarm\", \"down alarm\"],\n  [\"box\", \"ink\", \"button pressed\", \"pressed\"],\n  [\"box\", \"ink\", \
\"lines of a fault act\", \"acts\"],\n  [\"stripes\", \"ink\", \"stands until a reset\", \"stands\"],\n  [\"box\", \"forcedOff\", \
\"contactor forced\", \"forced off\"],\n  [\"box\", \"forced\", \"contactor forced\", \"forced full\"],\n  [\"upper\", \"forced\"\
, \"contactor forced\", \"forced up\"],\n  [\"lower\", \"forced\", \"contactor forced\", \"forced down\"],\n  [\"box\", \"hollow\
\", \"off for a reason of its own\", \"own\", \"stale\"],\n  [\"box\", \"wrong\", \"open, or wrong\", \"held\", \"differ\", \"fai\
ls\", \"open\"],\n  [\"rails\", \"wrong\", \"wire discrepant\", \"discrepant\"],\n  [\"box\", \"wrong\", \"open, or wrong\", \"no \
value\"],\n  [\"box\", \"hollow\", \"other\", \"other\"], // a state that this page does not know\n].flatMap(([shape, ink, words, \
...states]) => states.map(state => ({ state, shape, ink, words }))).map((look, rank) => ({\n  ...look, rank, parts: SHAPES[look.s\
hape], layers: INKS[look.ink], alarm: look.state.endsWith(\" alarm\"), isOff: /^off/.test(look.state),\n  texts: look.shape === \
\"box\", light: /^(ink|power|wrong|forced)$/.test(look.ink),\n}));\nconst RANKS = new Map(STATES.map(look => [look.state, look.ra\
nk]));\nconst rankOf = state => RANKS.get(state) ?? RANKS.get(\"other\");\nconst [LOUD, VALUE, VALUES, NO_VALUE] = [\"inspection\
\", \"value\", \"values\", \"no value\"].map(rankOf);\n\n// A lane that took nothing and whose states are all among these, the fi\
rst at least once, is a name in a line under the picture.\nconst AS_POWER = \"as power throughout:\";\nconst FOLDS = [\n  [\"agre\
e throughout:\", \"agree\", \"gap\"], [\"normal throughout:\", \"normal\"], [\"granted throughout:\", \"granted\"],\n  [\"one val\
ue throughout:\", \"value\"], [\"made throughout:\", \"made\"], [\"made while its source lives:\", \"made\", \"gap\"],\n  [\"made \
throughout, at times looked past:\", \"made, looked past\", \"made\", \"gap\"], [\"off throughout:\", \"off\"], [\"never:\", \"fr\
ee\"], [\"never:\", \"healthy\"],\n];\n\n// Sizes in px, and how much is drawn at most of what is in view.\nconst ROW = 22, BAR = \
14, TALL = 28, GAP = 8, NARROW = 700, FINE = 2, COARSE = 6, LEAST_TICKS = 6;\nconst MOST = { lines: 40, unasked: 12, rows: 14, pa\
ge: 200, near: 400, around: 120, pieces: 3000 };\n\nconst word = value => value.toString(16).toUpperCase().padStart(4, \"0\");\nc\
onst count = n => (n < 10000 ? String(n) : n.toLocaleString(\"en-US\"));\nconst counted = (n, what) => `${count(n)} ${what}${n ==\
= 1 ? \"\" : \"s\"}`;\nconst clamp = (x, least, most) => Math.max(least, Math.min(x, most));\n\n// How many of a sorted array are \
at most x; only those from `begin` to `end` are in question.\nfunction upTo(sorted, x, begin = 0, end = sorted.length) {\n  while \
(begin < end) {\n    const middle = (begin + end) >> 1;\n    if (sorted[middle] <= x) begin = middle + 1; else end = middle;\n  }\
\n  return begin;\n}\n\n// ---- The ride: the data in typed arrays. ----\n\n// The ranks, the greatest of each 16 of them, of eac\
h 256 and so on: so two pixels ask few of their bars, however many they are.\nfunction levelsOf(ranks) {\n  const levels = [ranks\
];\n  for (let below = ranks; below.length > 16; below = levels.at(-1)) {\n    const above = new Uint8Array((below.length + 15) >\
> 4);\n    for (let i = 0; i < below.length; i++) if (below[i] > above[i >> 4]) above[i >> 4] = below[i];\n    levels.push(above)\
;\n  }\n  return levels;\n}\n\nfunction loudest(levels, from, to) {\n  let top = 0;\n  for (let level = 0; from < to; level++, fr\
om >>= 4, to >>= 4) {\n    const ranks = levels[level], last = level === levels.length - 1;\n    for (; from < to && (last || fro\
m & 15); from++) top = Math.max(top, ranks[from]);\n    while (from < to && to & 15) top = Math.max(top, ranks[--to]);\n  }\n  re\
turn top;\n}\n\nclass Lane {\n  constructor(data, number) {\n    const n = data.bars.length, known = data.values?.map(value => ra\
nkOf(value.state));\n    Object.assign(this, { data, number, name: data.name, count: n, takes: [], bars: new Int32Array(data.bars\
) });\n    this.start = new Int32Array(n + 1); // bar i has the ticks from start[i] + 1 to start[i + 1]\n    this.ranks = new Uin\
t8Array(n);\n    this.sums = STATES.map(() => ({ bars: 0, ticks: 0 }));\n    for (let i = 0; i < n; i++) {\n      const value = d\
ata.bars[i], rank = known ? known[value] : value < 0 ? NO_VALUE : VALUE;\n      this.ranks[i] = rank;\n      this.start[i + 1] = \
this.start[i] + data.ticks[i];\n      this.sums[rank].bars++;\n      this.sums[rank].ticks += data.ticks[i];\n    }\n    this.lev\
els = levelsOf(this.ranks);\n  }\n\n  at(tick) { return Math.min(upTo(this.start, tick - 1), this.count) - 1; }\n\n  isLoud(tick) \
{ return this.ranks[this.at(tick)] >= LOUD; }\n\n  text(tick) {\n    const value = this.bars[this.at(tick)], { values, bits } = t\
his.data;\n    if (value === undefined) return \"\";\n    if (values) return values[value].text ?? values[value].state;\n    retu\
rn value < 0 ? \"no value\" : `${word(value)}: ${bits.filter((_, i) => value >> i & 1).join(\", \") || \"no bit set\"}`;\n  }\n\n  \
// What is written into a bar. Of a value it is the bits that no other lane shows.\n  short(tick) {\n    const value = this.bars[\
this.at(tick)], { values, bits, elsewhere } = this.data;\n    return values || value < 0 ? this.text(tick) : bits.filter((_, i) =\
> value & ~elsewhere & 1 << i).join(\" \") || word(value);\n  }\n\n  title(tick) {\n    const bar = this.at(tick), first = this.s\
tart[bar] + 1, last = this.start[bar + 1];\n    return `${this.name}: ${this.text(tick)}, ${first === last ? `tick ${first}` : `t\
icks ${first} to ${last}`}`;\n  }\n\n  // It shows at each tick the state of another lane.\n  isAs(other) {\n    for (let i = 0, \
j = 0; i < this.count && j < other.count;) {\n      if (this.ranks[i] !== other.ranks[j]) return false;\n      const [mine, its] \
= [this.start[i + 1], other.start[j + 1]];\n      i += mine <= its;\n      j += its <= mine;\n    }\n    return this.count > 0;\n  \
}\n\n  fold(power) {\n    if (this === power || this.takes.length || this.data.bits && this.count > 1) return undefined;\n    if \
(this.data.as) return this.isAs(power) ? AS_POWER : undefined;\n    const has = state => this.sums[rankOf(state)].bars > 0;\n    \
return FOLDS.find(([, ...states]) => has(states[0]) && STATES.every(({ state }) => !has(state) || states.includes(state)))?.[0];\
\n  }\n\n  // What stands left of its name.\n  summary(ticks) {\n    const top = this.sums.findLastIndex(sum => sum.bars > 0), no\
ne = this.sums[NO_VALUE].ticks;\n    if (this.number === 0) return `on ${count(this.sums.reduce((on, sum, rank) => on + (STATES[r\
ank].isOff ? 0 : sum.ticks), 0))} of ${counted(ticks, \"tick\")}`;\n    if (this.data.bits) return counted(new Set(this.bars).siz\
e - (none > 0), \"value\") + (none ? `, none ${counted(none, \"tick\")}` : \"\");\n    if (this.data.as || top < LOUD && !/past/.\
test(STATES[top]?.state)) return \"\";\n    const texts = new Set(this.data.values.filter(value => rankOf(value.state) === top).m\
ap(value => value.text ?? value.state));\n    const { bars, ticks: long } = this.sums[top];\n    return `${texts.size === 1 ? [..\
.texts][0] : STATES[top].state} ${bars > 1 ? `${count(bars)}×, ` : \"\"}${counted(long, \"tick\")}`;\n  }\n}\n\nclass Ride {\n  c\
onstructor({ title, ticks, lanes, losses, report }) {\n    Object.assign(this, { title, ticks, losses, report, lanes: lanes.map((\
lane, i) => new Lane(lane, i)), totals: report.at(-1) ?? \"\" });\n    [this.power] = this.lanes;\n    this.lossTicks = Int32Arra\
y.from(losses, loss => loss.tick);\n    this.asked = losses.filter(loss => loss.asked);\n    const named = new Map(this.lanes.map\
(lane => [lane.name, lane])), known = names => names.map(name => named.get(name)).filter(Boolean);\n    losses.forEach((loss, num\
ber) => {\n      Object.assign(loss, { number, reason: loss.line.replace(/^\\d+ off /, \"\"), rings: known(loss.lanes) });\n      \
if (loss.asked || losses.length <= MOST.unasked) for (const lane of [...loss.rings, ...known(loss.told)]) lane.takes.push(loss.ca\
use);\n    });\n    for (const lane of this.lanes) Object.assign(lane, { folded: lane.fold(this.power), about: lane.summary(ticks\
) });\n    this.rows = this.rowsOf();\n  }\n\n  // One row for each reason in order of its first loss, those last at which nobody \
asked to run; the reasons beyond the most are one row.\n  rowsOf() {\n    const rows = [...Map.groupBy(this.losses, loss => loss.\
reason)].map(([reason, losses]) => (\n      { reason, losses, asked: losses[0].asked, name: (/^K\\d+ (\\S+)/.exec(reason) ?? /^()\
(\\S*)/.exec(reason)).filter(Boolean).at(-1) }));\n    const asked = rows.filter(row => row.asked), rest = asked.length > MOST.ro\
ws ? asked.splice(MOST.rows - 1) : [];\n    const losses = rest.flatMap(row => row.losses).sort((a, b) => a.tick - b.tick);\n    \
if (rest.length) asked.push({ reason: `${rest.length} more reasons`, name: \"other\", asked: true, losses });\n    return [...ask\
ed, ...rows.filter(row => !row.asked)].map(row => ({ ...row, ticks: Int32Array.from(row.losses, loss => loss.tick) }));\n  }\n\n  \
// How long power is off from a loss on.\n  off(loss) {\n    let bar = this.power.at(loss.tick);\n    while (bar < this.power.cou\
nt && STATES[this.power.ranks[bar]].isOff) bar++;\n    return count(this.power.start[bar] - loss.tick + 1) + (bar === this.power.\
count ? \", to the end\" : \"\");\n  }\n}\n\n// ---- Drawing: the picture is an SVG in px, made anew from the ride and the view. \
----\n\nfunction add(parent, name, attributes = {}, text) {\n  const node = document.createElementNS(parent.namespaceURI ?? \"htt\
p://www.w3.org/2000/svg\", name);\n  for (const [key, value] of Object.entries(attributes)) node.setAttribute(key, value);\n  if \
(text !== undefined) node.textContent = text;\n  parent.append(node);\n  return node;\n}\n\nconst room = (text, more) => 7 * text\
.length + more;\nconst strokes = (spans, inset) => spans.map(([x, width]) => (width > 2 * inset ? `M${x + inset} 0h${width - 2 * \
inset}` : \"\")).join(\"\");\n\n// The pieces of a lane in view: each bar of `fine` pixels or more, and of the thinner ones so ma\
ny pixels at a time, as the loudest of them.\nfunction piecesOf(lane, { from, to }, scale, fine) {\n  const pieces = [];\n  for (\
let bar = Math.max(0, lane.at(Math.floor(from) + 1)), next; bar < lane.count && lane.start[bar] < to; bar = next) {\n    const be\
gin = lane.start[bar], thin = (lane.start[bar + 1] - begin) * scale < fine;\n    const edge = from + (Math.floor((begin - from) * \
scale / fine) + 1) * fine / scale;\n    next = thin ? Math.max(bar + 1, upTo(lane.start, edge, bar + 1, lane.count + 1) - 1) : ba\
r + 1;\n    const end = lane.start[next], last = pieces.at(-1), top = loudest(lane.levels, bar, next);\n    const rank = top === \
VALUE && next > bar + 1 ? VALUES : top, took = upTo(lane.takes, end) > upTo(lane.takes, begin);\n    if (thin && last?.thin && la\
st.rank === rank && last.took === took) last.end = end;\n    else pieces.push({ begin, end, rank, took, thin });\n  }\n  return p\
ieces;\n}\n\nclass Picture {\n  constructor(svg, ride) { Object.assign(this, { svg, ride }); }\n\n  // While the hand moves a rid\
e of very many bars is drawn coarser.\n  draw(state, moving) {\n    const { view: { from, to } } = state, fine = moving && this.p\
ieces > MOST.pieces ? COARSE : FINE;\n    if (fine === FINE) this.pieces = 0;\n    const width = Math.max(320, this.svg.parentNod\
e.clientWidth), narrow = width < NARROW;\n    const left = narrow ? 108 : Math.round(Math.min(0.24 * width, 320)), w = width - le\
ft - Math.max(4, Math.round(0.01 * width));\n    Object.assign(this, { ...state, fine, width, narrow, left, w, scale: w / (to - f\
rom), names: new Map(), seen: new Set() });\n    this.lanes = this.ride.lanes.filter(lane => state.quiet || !lane.folded);\n    t\
his.rows = this.ride.rows.filter(row => row.asked || !state.hidden);\n    this.draft = document.createDocumentFragment();\n    th\
is.layers = Object.fromEntries([\"back\", \"bars\", \"cuts\", \"texts\", \"marks\"].map(name => [name, add(this.draft, \"g\", { c\
lass: name })]));\n    this.place();\n    this.choose();\n    this.drawTitle();\n    this.rows.forEach((row, i) => this.drawRow(r\
ow, 42 + ROW * i));\n    this.drawAxis();\n    for (const lane of this.lanes) this.drawLane(lane);\n    this.drawLosses();\n    t\
his.finish(Math.ceil(Math.max(this.drawFolds(), this.drawLegend()) + 8));\n  }\n\n  x(edge) { return this.left + (edge - this.vie\
w.from) * this.scale; }\n\n  edge(x) { return this.view.from + (x - this.left) / this.scale; }\n\n  tick(x) { return clamp(Math.f\
loor(this.edge(x)) + 1, 1, this.ride.ticks); }\n\n  // Where each lane stands.\n  place() {\n    this.axis = 46 + ROW * Math.max(\
1, this.rows.length);\n    this.tops = new Map();\n    this.end = this.axis + 24;\n    this.lanes.forEach((lane, i) => {\n      i\
f (i && lane.data.group !== this.lanes[i - 1].data.group) this.end += GAP;\n      this.tops.set(lane, this.end);\n      this.end \
+= i ? ROW : TALL + GAP;\n    });\n  }\n\n  // The losses in view, those with lines, and the causes of the rings of each lane.\n  \
choose() {\n    const { ride, view: { from, to } } = this, all = ride.losses.slice(upTo(ride.lossTicks, from), upTo(ride.lossTick\
s, to + 1));\n    this.losses = this.hidden ? all.filter(loss => loss.asked) : all;\n    const asked = this.losses.filter(loss => \
loss.asked).length;\n    this.lined = this.losses.filter(loss => (loss.asked ? asked <= MOST.lines : this.losses.length <= MOST.u\
nasked));\n    this.ringed = Map.groupBy(this.lined.flatMap(loss => loss.rings.map(lane => ({ lane, cause: loss.cause }))), ring \
=> ring.lane);\n  }\n\n  text(x, y, text, kind = \"\", anchor = \"start\") {\n    return add(this.layers.texts, \"text\", { x: Ma\
th.round(x), y, class: kind, \"text-anchor\": anchor }, text);\n  }\n\n  rect(layer, kind, x, y, width, height) {\n    return add\
(layer, \"rect\", { class: kind, x: Math.round(x), y, width: Math.max(1, Math.round(width)), height });\n  }\n\n  // A name left \
of the plot, and left of it what is said of it.\n  name(y, name, about, bold) {\n    this.text(this.left - 8, y, name, bold ? \"n\
ame b\" : \"name\", \"end\");\n    return this.narrow ? undefined : this.text(8, y, this.fit(about, name), \"muted\");\n  }\n\n  \
fit(text, name) {\n    const most = Math.floor((this.left - 24 - 6.5 * name.length) / 6.4);\n    return text.length > most ? `${t\
ext.slice(0, Math.max(0, most - 2))}..` : text;\n  }\n\n  drawTitle() {\n    const { from, to } = this.view, all = this.ride.tick\
s, part = edge => this.left + edge / all * this.w;\n    const title = this.text(8, 18, \"\", \"muted\"), most = this.narrow ? 24 \
: 90;\n    add(title, \"tspan\", { class: \"title ink\" }, this.ride.title.length > most ? `${this.ride.title.slice(0, most - 2)}\
..` : this.ride.title);\n    title.append(`   ${this.ride.totals}`);\n    if (!this.ride.losses.length) this.text(this.left, 58, \
\"power is never lost\", \"b\");\n    if (to - from >= all) return;\n    this.text(this.width - 8, this.narrow ? 38 : 18, `ticks \
${count(Math.floor(from) + 1)} to ${count(Math.ceil(to))} of ${count(all)}`, \"b\", \"end\");\n    this.rect(this.layers.back, \"\
grid\", this.left, 26, this.w, 3);\n    this.rect(this.layers.back, \"muted\", part(from), 26, Math.max(3, part(to) - part(from))\
, 3);\n  }\n\n  // The marks of a row are one path; where they would touch, one stands for several. A line stands where it has ro\
om.\n  drawRow(row, y) {\n    const several = row.losses.length > 1, right = this.left + this.w, marks = [];\n    const [before, \
end] = [this.view.from, this.view.to].map(edge => upTo(row.ticks, edge)), shown = row.losses.slice(before, end), after = row.loss\
es.length - end;\n    this.name(y + 12, several ? `${row.name} ×${count(row.losses.length)}` : row.name, several ? row.reason : \
\"\", true);\n    if (before) this.text(this.left, y + 12, `◂ ${count(before)}`, \"muted\");\n    if (after) this.text(right, y + \
12, `${count(after)} ▸`, \"muted\", \"end\");\n    for (const loss of shown) {\n      const x = Math.round(this.x(loss.tick - 1))\
;\n      if (!marks.length || x - marks.at(-1).x >= 4) marks.push({ x, loss });\n    }\n    if (!marks.length) return;\n    const \
d = marks.map(({ x }) => `M${x - 5.5} ${y + 5}h11l-5.5 10z`).join(\"\");\n    add(this.layers.marks, \"path\", { class: row.asked \
? \"mark\" : \"unasked mark\", d, \"data-losses\": shown.length });\n    if (!row.asked && several) return;\n    const last = rig\
ht - (after ? 40 : 0), first = this.left + (before ? 40 : 0);\n    marks.reduce((free, { x, loss }, i) => this.lossText(x, y + 12\
, loss.line, free, marks[i + 1] ? marks[i + 1].x - 8 : last), first);\n  }\n\n  // Behind its mark or before it, whole or its fir\
st three words. It gives where the next may begin.\n  lossText(x, y, line, free, next) {\n    for (const text of [line, line.spli\
t(\" \", 3).join(\" \")]) {\n      const length = room(text, 14), behind = x + length <= next;\n      if (behind || x - length >= \
free) this.text(behind ? x + 9 : x - 9, y, text, \"b halo\", behind ? \"start\" : \"end\");\n      if (behind || x - length >= fr\
ee) return behind ? x + length : x + 8;\n    }\n    return x + 8;\n  }\n\n  drawAxis() {\n    const { from, to } = this.view, ste\
ps = [1, 2, 5].flatMap(n => [0, 1, 2, 3, 4, 5].map(k => n * 10 ** k)).sort((a, b) => a - b);\n    const step = steps.find(n => (t\
o - from) / n <= (this.narrow ? 4 : 10)), ticks = from < 1 && step > 1 ? [1] : [];\n    for (let n = Math.ceil((from + 1) / step) \
* step; n <= to; n += step) ticks.push(n);\n    for (const n of ticks) {\n      const x = this.x(n - 1);\n      this.rect(this.la\
yers.back, \"grid\", x, this.axis + 4, 1, this.end - this.axis - 4);\n      if (x < this.left + this.w - 30) this.text(x + 2, thi\
s.axis + 11, count(n), \"muted\");\n    }\n  }\n\n  drawLane(lane) {\n    const y = this.tops.get(lane), tall = lane === this.rid\
e.power, spans = new Map();\n    for (const piece of piecesOf(lane, this.view, this.scale, this.fine)) {\n      this.pieces++;\n      \
const key = piece.rank + (piece.took ? STATES.length : 0), span = this.span(piece);\n      if (!spans.has(key)) spans.set(key, []\
);\n      spans.get(key).push(span);\n      this.seen.add(piece.rank);\n      if (!piece.thin) this.barText(lane, piece, span, y)\
;\n    }\n    const group = add(this.layers.bars, \"g\", { \"data-lane\": lane.name });\n    for (const [key, its] of [...spans].\
sort((a, b) => a[0] - b[0])) this.bars(group, STATES[key % STATES.length], key >= STATES.length, its, y, tall ? 2 : 1);\n    this\
.names.set(lane, this.name(y + (tall ? 18 : 11), lane.name, lane.about, tall || this.ringed.has(lane)));\n  }\n\n  // Left edge a\
nd width. What is loud or red has two pixels at least.\n  span({ begin, end, rank, took }) {\n    const x = Math.round(Math.max(t\
his.x(begin), this.left)), right = Math.round(Math.min(this.x(end), this.left + this.w));\n    const least = took || rank >= LOUD \
? FINE : 1;\n    return [Math.min(x, this.left + this.w - least), Math.max(right - x, least)];\n  }\n\n  // All bars of one state\
, as strokes: a path for each layer of its ink in each part of its shape. What took the power is red.\n  bars(group, { state, par\
ts, layers, alarm }, took, spans, y, times) {\n    for (const [ink, inset] of layers) {\n      const d = strokes(spans, inset), k\
ind = !took ? ink : inset > 0 ? \"band\" : \"loss\";\n      for (const [top, height] of d ? parts : []) {\n        add(group, \"p\
ath\", { class: kind, \"data-state\": state, transform: `translate(0 ${y + (top + height / 2) * times})`, \"stroke-width\": heigh\
t * times - 2 * inset, d });\n      }\n    }\n    if (alarm) add(group, \"path\", { class: \"ink\", transform: `translate(0 ${y - \
4})`, \"stroke-width\": 2, d: strokes(spans, 0) });\n  }\n\n  // As many words as the bar has room for: all, two, one, none.\n  b\
arText(lane, { begin, rank, took }, [x, width], y) {\n    const { state, texts, light, layers } = STATES[rank], tall = lane === t\
his.ride.power;\n    if (!(tall ? rank >= LOUD : texts) || width < 20) return;\n    const first = Math.max(begin, Math.floor(this\
.view.from)) + 1, words = lane.short(first).split(\" \");\n    const ring = this.ringed.get(lane)?.some(({ cause }) => cause === \
begin + 1) ? 13 : 5;\n    const text = [words.length, 2, 1].map(n => words.slice(0, n).join(\" \").replace(/[,:]$/, \"\")).find(i\
t => room(it, ring + 5) <= width);\n    const down = !tall ? 11 : /^up/.test(state) ? 12 : /^down/.test(state) ? 24 : 18;\n    if \
(text) this.text(x + ring, y + down, text, (took ? layers.length < 2 : light) ? \"light\" : \"\");\n  }\n\n  // A stroke over the \
power at each loss; from the mark through the tick that took it, and a ring on each lane that did.\n  drawLosses() {\n    const p\
ower = this.tops.get(this.ride.power), { back, cuts, marks } = this.layers;\n    for (const loss of this.lined) {\n      const ki\
nd = loss.asked ? \"loss\" : \"muted\", thick = loss === this.loss ? 3 : 1, [from, to] = [this.x(loss.cause - 1), this.x(loss.tic\
k - 1)];\n      const top = 57 + ROW * this.rows.findIndex(row => row.losses.includes(loss));\n      this.rect(back, \"band\", fr\
om, power + TALL, to - from, this.end - power - TALL);\n      if (loss.tick <= this.view.to) this.rect(cuts, kind, to - thick / 2\
, top, thick, power - top);\n      if (from < this.left) continue;\n      this.rect(cuts, kind, from - thick / 2, power + TALL, t\
hick, this.end - power - TALL);\n      for (const lane of loss.rings.filter(it => this.tops.has(it))) {\n        const place = { \
cx: Math.round(from), cy: this.tops.get(lane) + BAR / 2, r: 8 };\n        add(marks, \"circle\", { class: \"paper\", ...place });\
\n        add(marks, \"circle\", { class: \"ring\", \"data-lane\": lane.name, ...place });\n      }\n    }\n    let free = 0;\n    \
for (const { tick, asked } of this.losses.filter(loss => loss.tick <= this.view.to)) {\n      if (this.x(tick - 1) < free) contin\
ue;\n      this.rect(cuts, asked ? \"loss\" : \"muted\", this.x(tick - 1) - 1, power, asked ? 2 : 1, TALL);\n      free = this.x(\
tick - 1) + FINE;\n    }\n  }\n\n  // The folded lanes in lines; it gives where they end.\n  drawFolds() {\n    const most = this\
.narrow ? Math.floor(this.width / 6.6) : 74, folds = Map.groupBy(this.ride.lanes, lane => lane.folded);\n    let y = this.end + 1\
6;\n    for (const fold of this.quiet ? [] : new Set([AS_POWER, ...FOLDS.map(it => it[0])])) {\n      const lanes = folds.get(fol\
d) ?? [];\n      let line = lanes.length && this.text(8, y, \"\", \"muted\"), used = fold.length;\n      if (line) add(line, \"ts\
pan\", { class: \"b\" }, fold);\n      lanes.forEach((lane, i) => {\n        const name = ` ${lane.name}${lane.data.bits ? ` ${wo\
rd(lane.bars[0])}` : \"\"}${i + 1 < lanes.length ? \",\" : \"\"}`;\n        if (used + name.length > most) [line, used] = [this.t\
ext(20, y += 16, \"\", \"muted\"), 2];\n        line.append(name);\n        used += name.length;\n      });\n      if (line) y += \
19;\n    }\n    return (this.foldEnd = y);\n  }\n\n  // What the shapes mean, of those that occur.\n  drawLegend() {\n    const [\
left, top] = this.narrow ? [8, this.foldEnd + 4] : [Math.min(568, this.width - 400), this.end + 8];\n    const entries = Map.grou\
pBy(STATES.filter(({ rank, words }) => words && (this.seen.has(rank) || this.lanes.some(lane => lane.sums[rank].bars))), look => \
look.words);\n    let i = 0;\n    for (const [words, [look]] of entries) {\n      const x = left + 190 * (i % 2), y = top + 21 * \
(i++ >> 1);\n      this.bars(this.layers.bars, look.alarm ? { ...look, parts: [] } : look, false, [[x, 22]], look.alarm ? y + 10 \
: y, 1);\n      this.text(x + 30, y + 11, words);\n    }\n    const y = top + 21 * Math.ceil(i / 2);\n    if (!this.ride.losses.l\
ength) return y;\n    add(this.layers.marks, \"path\", { class: \"mark\", d: `M${left + 4.5} ${y + 2}h11l-5.5 10z` });\n    add(t\
his.layers.marks, \"circle\", { cx: left + 10, cy: y + 24, r: 7 });\n    this.text(left + 30, y + 11, \"power lost; the line goes \
through the\");\n    this.text(left + 30, y + 26, \"tick that took it, the ring is on what did\");\n    return y + 36;\n  }\n\n  \
finish(height) {\n    this.draft.prepend(this.rect(this.draft, \"paper\", 0, 0, this.width, height));\n    this.draft.normalize()\
; // so that the saved picture has the same texts\n    this.svg.replaceChildren(this.draft);\n    const size = { class: this.narr\
ow ? \"ride narrow\" : \"ride\", viewBox: `0 0 ${this.width} ${height}`, width: this.width, height };\n    for (const [key, value\
] of Object.entries(size)) this.svg.setAttribute(key, value);\n  }\n\n  // The cursors, and left of the names what each lane show\
s at the tick of the last one.\n  drawCursor(at, over) {\n    this.cursor?.remove();\n    this.cursor = add(this.svg, \"g\");\n    \
for (const [tick, kind] of [[at, \"ink\"], [over, \"muted\"]]) {\n      const x = this.x(tick - 0.5), right = x > this.left + thi\
s.w - 60;\n      if (!tick || x < this.left || x > this.left + this.w) continue;\n      this.rect(this.cursor, kind, x - 0.5, thi\
s.axis + 4, 1, this.end - this.axis - 4);\n      add(this.cursor, \"text\", { x: x + (right ? -4 : 4), y: this.axis + 20, class: \
\"b halo\", \"text-anchor\": right ? \"end\" : \"start\" }, count(tick));\n    }\n    const tick = over ?? at;\n    for (const [l\
ane, about] of this.names) {\n      if (!about) continue;\n      about.textContent = this.fit(tick ? lane.text(tick) : lane.about\
, lane.name);\n      about.setAttribute(\"class\", tick ? \"\" : \"muted\");\n    }\n  }\n\n  // The picture as a file of its own\
.\n  file() {\n    const copy = this.svg.cloneNode(true);\n    for (const name of [\"id\", \"tabindex\", \"aria-describedby\"]) c\
opy.removeAttribute(name);\n    copy.setAttribute(\"role\", \"img\");\n    copy.prepend(add(copy, \"style\", {}, document.getElem\
entById(\"look\").textContent));\n    return new XMLSerializer().serializeToString(copy);\n  }\n}\n\n// ---- The page: its state \
is the view, the cursor, the chosen loss and two filters. It stands in the fragment of the address. ----\n\nconst by = id => docu\
ment.getElementById(id);\n\nclass Page {\n  constructor(ride) {\n    Object.assign(this, { ride, picture: new Picture(by(\"pictur\
e\"), ride), all: Math.max(1, ride.ticks), row: 0 });\n    this.state = { view: { from: 0, to: this.all }, at: null, over: null, \
loss: null, quiet: false, hidden: false };\n    this.writeHead();\n    this.readAddress();\n    this.listen();\n  }\n\n  writeHea\
d() {\n    const { title, totals, losses, lanes, asked } = this.ride, name = `${title}: ${totals}`;\n    const said = losses.leng\
th ? `Power was lost ${counted(losses.length, \"time\")}` : \"Power is never lost\";\n    document.title = by(\"title\").textCont\
ent = name;\n    by(\"lost\").textContent = said;\n    by(\"picture\").setAttribute(\"aria-label\", `${name}. ${said}. ${losses.s\
lice(0, 12).map(loss => loss.line).join(\"; \")}`);\n    by(\"hidden-box\").hidden = asked.length === losses.length;\n    by(\"un\
asked\").textContent = count(losses.length - asked.length);\n    by(\"quiet-count\").textContent = lanes.filter(lane => lane.fold\
ed).length;\n    by(\"losses\").hidden = by(\"previous\").disabled = by(\"next\").disabled = !losses.length;\n  }\n\n  // ticks=F\
IRST-LAST, at=TICK, quiet, hidden: each may be missing, and what makes no sense is as if it were.\n  readAddress() {\n    const t\
old = new URLSearchParams(location.hash.slice(1)), [, first, last] = /^(\\d+)-(\\d+)$/.exec(told.get(\"ticks\")) ?? [0, 1, this.a\
ll];\n    const at = Number(told.get(\"at\")), loss = this.ride.losses.find(it => it.cause === at) ?? null;\n    Object.assign(th\
is.state, { at: Number.isInteger(at) && at >= 1 && at <= this.ride.ticks ? at : null, loss, quiet: told.has(\"quiet\"), hidden: t\
old.has(\"hidden\") });\n    for (const name of [\"quiet\", \"hidden\"]) by(name).checked = this.state[name];\n    this.look(firs\
t - 1, Number(last));\n    this.listLosses();\n  }\n\n  writeAddress() {\n    const { view: { from, to }, at, quiet, hidden } = t\
his.state, seen = to - from < this.all && `ticks=${Math.floor(from) + 1}-${Math.ceil(to)}`;\n    const hash = [seen, at && `at=${\
at}`, quiet && \"quiet\", hidden && \"hidden\"].filter(Boolean).join(\"&\");\n    if (hash !== location.hash.slice(1)) history.re\
placeState(null, \"\", `#${hash}`);\n  }\n\n  // Draws at the next frame. When the hand rests it draws once more, if that was coa\
rse, and writes the address.\n  change() {\n    this.frame ??= requestAnimationFrame(() => this.draw(true));\n    clearTimeout(th\
is.resting);\n    this.resting = setTimeout(() => this.rest(), 150);\n  }\n\n  rest() {\n    if (this.picture.fine !== FINE) this\
.draw(false);\n    this.writeAddress();\n  }\n\n  draw(moving) {\n    const { view, at, over } = this.state;\n    this.frame = un\
defined;\n    this.picture.draw(this.state, moving);\n    this.picture.drawCursor(at, over);\n    this.showValues();\n    by(\"wh\
ole\").disabled = by(\"out\").disabled = view.to - view.from >= this.all;\n  }\n\n  // A view from edge to edge, neither too shor\
t nor outside.\n  look(from, to) {\n    const length = clamp(to - from, Math.min(LEAST_TICKS, this.all), this.all), begin = clamp\
((from + to - length) / 2, 0, this.all - length);\n    this.state.view = { from: begin, to: begin + length };\n    this.change();\
\n  }\n\n  // So many times as near; the edge `still` stays where it is.\n  zoom(times, still = this.middle()) {\n    const { fro\
m, to } = this.state.view, length = clamp((to - from) / times, Math.min(LEAST_TICKS, this.all), this.all);\n    const begin = sti\
ll - (still - from) * length / (to - from);\n    this.look(begin, begin + length);\n  }\n\n  pan(part) {\n    const { from, to } \
= this.state.view, move = clamp(part * (to - from), -from, this.all - to);\n    this.look(from + move, to + move);\n  }\n\n  midd\
le() {\n    const { view: { from, to }, at } = this.state;\n    return at > from && at <= to ? at - 0.5 : (from + to) / 2;\n  }\n\
\n  // Puts the cursor to a tick, and brings it into view.\n  put(tick, loss = null) {\n    const { from, to } = this.state.view, \
half = (to - from) / 2;\n    Object.assign(this.state, { at: tick, over: null, loss });\n    if (tick && (tick - 1 < from || tick \
> to)) this.look(tick - half, tick + half);\n    this.findRow();\n    this.say();\n    this.change();\n  }\n\n  go(loss) {\n    c\
onst { from, to } = this.state.view;\n    if (to - from > MOST.near) this.look(loss.cause - MOST.around / 2, loss.cause + MOST.ar\
ound / 2);\n    this.put(loss.cause, loss);\n  }\n\n  shown() { return this.state.hidden ? this.ride.asked : this.ride.losses; }\
\n\n  // The next loss after the chosen one, or after the cursor; or the one before.\n  step(by) {\n    const losses = this.shown\
(), { loss, at, view } = this.state, place = losses.indexOf(loss), from = at ?? (by > 0 ? 0 : view.to + 1);\n    const found = pl\
ace >= 0 ? losses[place + by] : by > 0 ? losses.find(it => it.cause > from) : losses.findLast(it => it.cause < from);\n    if (fo\
und) this.go(found);\n  }\n\n  stepTick(by) { this.put(clamp((this.state.at ?? Math.round(this.middle())) + by, 1, this.ride.tick\
s)); }\n\n  // All values at the cursor. The loud ones are said aloud.\n  showValues() {\n    const { at } = this.state;\n    by(\
\"values\").hidden = !at;\n    by(\"values-tick\").textContent = at ? `Tick ${count(at)}` : \"\";\n    by(\"values-list\").replac\
eChildren();\n    for (const lane of at ? this.ride.lanes : []) {\n      const item = add(by(\"values-list\"), \"div\", { class: \
lane.isLoud(at) ? \"loud\" : \"\" });\n      add(item, \"dt\", {}, `${lane.name} `);\n      add(item, \"dd\", {}, lane.text(at));\
\n    }\n  }\n\n  say() {\n    const { at, loss } = this.state, { lanes, power } = this.ride;\n    const loud = lanes.filter(lane \
=> at && (lane === power || lane.isLoud(at) && !lane.data.as)).map(lane => `${lane.name} ${lane.text(at)}`);\n    by(\"live\").te\
xtContent = at ? `${loss ? `loss ${loss.number + 1}: ${loss.line}; ` : \"\"}tick ${at}: ${loud.join(\"; \")}` : \"\";\n  }\n\n  /\
/ The table of the losses, so many of them at a time.\n  listLosses() {\n    const losses = this.shown(), end = Math.min(this.row \
+ MOST.page, losses.length);\n    by(\"rows\").replaceChildren();\n    for (const loss of losses.slice(this.row, end)) this.addRo\
w(loss);\n    by(\"pages\").hidden = losses.length <= MOST.page;\n    by(\"page-of\").textContent = `${count(this.row + 1)} to ${\
count(end)} of ${count(losses.length)}`;\n    [by(\"earlier\").disabled, by(\"later\").disabled] = [this.row === 0, end === losse\
s.length];\n    this.markRow();\n  }\n\n  addRow(loss) {\n    const row = add(by(\"rows\"), \"tr\", { class: loss.asked ? \"\" : \
\"quiet\", \"data-loss\": loss.number });\n    add(add(row, \"td\", { class: \"num\" }), \"button\", { \"aria-label\": `go to los\
s ${loss.number + 1}` }, count(loss.number + 1));\n    add(row, \"td\", { class: \"line\" }, loss.line);\n    add(row, \"td\", { \
class: \"num wide\" }, count(loss.cause));\n    add(row, \"td\", { class: \"wide\" }, loss.rings[0]?.title(loss.cause) ?? \"\");\
\n    add(row, \"td\", { class: \"num\" }, this.ride.off(loss));\n  }\n\n  markRow() {\n    for (const row of by(\"rows\").childr\
en) row.toggleAttribute(\"aria-current\", Number(row.dataset.loss) === this.state.loss?.number);\n  }\n\n  // Turns to the page o\
f the chosen loss.\n  findRow() {\n    const place = this.shown().indexOf(this.state.loss);\n    if (place >= 0 && place - place \
% MOST.page !== this.row) this.turn(place - place % MOST.page);\n    else this.markRow();\n  }\n\n  turn(row) {\n    this.row = r\
ow;\n    this.listLosses();\n  }\n\n  listen() {\n    const clicks = {\n      in: () => this.zoom(2), out: () => this.zoom(0.5), \
whole: () => this.look(0, this.all), previous: () => this.step(-1), next: () => this.step(1),\n      save: () => this.save(), cop\
y: () => this.copy(), close: () => this.put(null), earlier: () => this.turn(this.row - MOST.page), later: () => this.turn(this.ro\
w + MOST.page),\n      rows: event => this.go(this.ride.losses[event.target.closest(\"tr\").dataset.loss]),\n    };\n    for (con\
st [id, does] of Object.entries(clicks)) by(id).addEventListener(\"click\", does);\n    for (const name of [\"quiet\", \"hidden\"\
]) by(name).addEventListener(\"change\", event => this.filter(name, event.target.checked));\n    by(\"report-box\").addEventListe\
ner(\"toggle\", () => this.showReport());\n    addEventListener(\"keydown\", event => this.key(event));\n    addEventListener(\"h\
ashchange\", () => this.readAddress());\n    new ResizeObserver(() => this.change()).observe(by(\"picture\").parentNode);\n    re\
turn new Hand(by(\"picture\"), this);\n  }\n\n  filter(name, on) {\n    this.state[name] = on;\n    this.turn(0);\n    this.chang\
e();\n  }\n\n  key(event) {\n    const does = KEYS[event.shiftKey && event.key.startsWith(\"Arrow\") ? `Shift${event.key}` : even\
t.key];\n    if (!does || event.ctrlKey || event.metaKey || event.altKey) return;\n    event.preventDefault();\n    does(this);\n  \
}\n\n  hover(tick) {\n    if (tick === this.state.over) return;\n    this.state.over = tick;\n    this.picture.drawCursor(this.st\
ate.at, tick);\n  }\n\n  showReport() { by(\"report\").textContent ||= `${this.ride.report.join(\"\\n\")}\\n`; }\n\n  save() {\n    \
this.draw(false);\n    const href = URL.createObjectURL(new Blob([this.picture.file()], { type: \"image/svg+xml\" }));\n    const \
link = add(document.body, \"a\", { href, download: `${this.ride.title.replace(/[^\\w.-]+/g, \"_\") || \"ride\"}.svg` });\n    lin\
k.click();\n    link.remove();\n    setTimeout(() => URL.revokeObjectURL(href), 1000);\n  }\n\n  async copy() {\n    this.showRep\
ort();\n    const told = await navigator.clipboard?.writeText(by(\"report\").textContent).then(() => \"copied\", () => undefined)\
;\n    by(\"live\").textContent = by(\"copy\").textContent = told ?? \"copy it below\";\n    if (!told) by(\"report-box\").open = \
true;\n    if (!told) getSelection().selectAllChildren(by(\"report\"));\n    setTimeout(() => { by(\"copy\").textContent = \"copy \
report\"; }, 1500);\n  }\n}\n\nconst KEYS = {\n  \"+\": page => page.zoom(2), \"=\": page => page.zoom(2), \"-\": page => page.zo\
om(0.5), \"0\": page => page.look(0, page.all),\n  ArrowLeft: page => page.pan(-0.125), ArrowRight: page => page.pan(0.125), n: p\
age => page.step(1), p: page => page.step(-1),\n  ShiftArrowLeft: page => page.stepTick(-1), ShiftArrowRight: page => page.stepTi\
ck(1), \",\": page => page.stepTick(-1), \".\": page => page.stepTick(1),\n  Escape: page => page.put(null),\n};\n\n// Mouse, pen \
and fingers on the picture: hover, click, drag, pinch and wheel.\nclass Hand {\n  constructor(svg, page) {\n    Object.assign(thi\
s, { svg, page, picture: page.picture, down: new Map() });\n    for (const [name, does] of Object.entries({ pointerdown: this.pre\
ss, pointermove: this.move, pointerup: this.lift, pointercancel: this.drop, wheel: this.wheel })) {\n      svg.addEventListener(n\
ame, event => does.call(this, event), { passive: false });\n    }\n    svg.addEventListener(\"pointerleave\", () => page.hover(nu\
ll));\n    svg.addEventListener(\"dblclick\", event => page.zoom(2, this.picture.edge(this.x(event))));\n  }\n\n  x(event) {\n    \
const box = this.svg.getBoundingClientRect();\n    return (event.clientX - box.left) * this.picture.width / box.width;\n  }\n\n  \
// What is under the fingers now is kept under them.\n  hold() { this.held = { xs: [...this.down.values()], edges: [...this.down.\
values()].map(x => this.picture.edge(x)), scale: this.picture.scale }; }\n\n  press(event) {\n    if (event.button !== 0) return;\
\n    if (!this.down.size) this.moved = false;\n    this.svg.focus({ preventScroll: true });\n    this.down.set(event.pointerId, \
this.x(event));\n    this.hold();\n  }\n\n  move(event) {\n    const x = this.x(event), { left, w } = this.picture;\n    if (!thi\
s.down.has(event.pointerId)) return event.pointerType === \"mouse\" && this.page.hover(x < left || x > left + w ? null : this.pic\
ture.tick(x));\n    this.down.set(event.pointerId, x);\n    this.moved ||= this.down.size > 1 || Math.abs(x - this.held.xs[0]) > \
3;\n    if (!this.moved) return undefined;\n    this.svg.setPointerCapture(event.pointerId);\n    return this.drag([...this.down.\
values()]);\n  }\n\n  drag([x, other]) {\n    const { xs, edges, scale } = this.held, { left, w } = this.picture;\n    const near \
= other === undefined ? scale : scale * Math.max(20, Math.abs(other - x)) / Math.max(20, Math.abs(xs[1] - xs[0]));\n    const fro\
m = clamp(edges[0] - (x - left) / near, 0, Math.max(0, this.page.all - w / near));\n    this.page.look(from, from + w / near);\n  \
}\n\n  lift(event) {\n    const x = this.x(event), click = this.down.has(event.pointerId) && !this.moved && x >= this.picture.lef\
t;\n    this.drop(event);\n    if (click) this.choose(x, event);\n  }\n\n  // The nearest loss, where a mark is hit; else the tic\
k.\n  choose(x, event) {\n    const marked = event.target.closest(\".mark[data-losses]\"), far = loss => Math.abs(this.picture.x(\
loss.tick - 1) - x);\n    if (marked) this.page.go(this.picture.losses.reduce((best, loss) => (far(loss) < far(best) ? loss : bes\
t)));\n    else this.page.put(this.picture.tick(x));\n  }\n\n  drop(event) {\n    this.down.delete(event.pointerId);\n    this.ho\
ld();\n  }\n\n  // A wheel alone scrolls the page until the picture has the focus, so that nobody is caught in it.\n  wheel(event\
) {\n    const { ctrlKey, metaKey, shiftKey, deltaX, deltaY, deltaMode } = event, unit = deltaMode === 1 ? 16 : 1;\n    const asi\
de = shiftKey ? deltaY || deltaX : Math.abs(deltaX) > Math.abs(deltaY) ? deltaX : 0, zooms = ctrlKey || metaKey;\n    if (!zooms \
&& !aside && document.activeElement !== this.svg) return;\n    event.preventDefault();\n    if (zooms || !aside) this.page.zoom(M\
ath.exp(-deltaY * unit / (zooms ? 150 : 400)), this.picture.edge(this.x(event)));\n    else this.page.pan(aside * unit / this.pic\
ture.w);\n  }\n}\n\n// ---- The start: the data stands in the page, or is chosen or dropped as a file. ----\n\nfunction open(text\
) {\n  const data = JSON.parse(text);\n  if (data.form !== 1) throw new Error(\"its form is not 1\");\n  const page = new Page(ne\
w Ride(data));\n  by(\"choose\").hidden = true;\n  by(\"ride-page\").hidden = false;\n  return page;\n}\n\nasync function openFil\
e(file) {\n  try { open(await file.text()); } catch (error) { by(\"choose-told\").textContent = `This is no ride: ${error.message\
}`; }\n}\n\nfunction start() {\n  const text = by(\"ride\")?.textContent.trim();\n  if (text) return open(text);\n  by(\"choose\"\
).hidden = false;\n  by(\"file\").addEventListener(\"change\", event => openFile(event.target.files[0]));\n  addEventListener(\"d\
ragover\", event => event.preventDefault());\n  addEventListener(\"drop\", event => {\n    event.preventDefault();\n    openFile(\
event.dataTransfer.files[0]);\n  });\n  return undefined;\n}\n\nstart();\n</script>\n</head>\n<body>\n<main>\n<section id=\"choos\
e\" hidden>\n<h2>The ride of a script</h2>\n<p><label>Choose or drop what <code>rideview --json</code> printed: <input type=\"fil\
e\" id=\"file\" accept=\".json,application/json\"></label></p>\n<p id=\"choose-told\" role=\"alert\"></p>\n</section>\n<div id=\"\
ride-page\" hidden>\n<h1 id=\"title\"></h1>\n<div class=\"tools\" role=\"toolbar\" aria-label=\"the picture\">\n<button id=\"in\" \
title=\"zoom in (+)\" aria-label=\"zoom in\">+</button>\n<button id=\"out\" title=\"zoom out (-)\" aria-label=\"zoom out\">−</but\
ton>\n<button id=\"whole\" title=\"the whole ride (0)\">whole</button>\n<button id=\"previous\" title=\"the loss before (p)\" ari\
a-label=\"previous loss\">◀ loss</button>\n<button id=\"next\" title=\"the next loss (n)\" aria-label=\"next loss\">loss ▶</butto\
n>\n<label><input type=\"checkbox\" id=\"quiet\"> quiet lanes (<span id=\"quiet-count\"></span>)</label>\n<label id=\"hidden-box\
\"><input type=\"checkbox\" id=\"hidden\"> hide <span id=\"unasked\"></span> unasked<span class=\"wide\"> (K9, K10, K11: nobody a\
sked to run)</span></label>\n</div>\n<div><svg id=\"picture\" class=\"ride\" role=\"group\" tabindex=\"0\" aria-describedby=\"key\
s\"></svg></div>\n<div class=\"tools below\">\n<span class=\"keys wide\" id=\"keys\"><kbd>+</kbd> <kbd>-</kbd> <kbd>0</kbd> or ct\
rl and wheel: zoom &nbsp; <kbd>←</kbd> <kbd>→</kbd> or drag: pan &nbsp; <kbd>n</kbd> <kbd>p</kbd>: next and previous loss &nbsp; \
click or <kbd>,</kbd> <kbd>.</kbd>: cursor &nbsp; <kbd>Esc</kbd>: no cursor</span>\n<span class=\"gap\"></span>\n<button id=\"sav\
e\" title=\"the picture as it is shown, as an SVG file\">save picture</button>\n<button id=\"copy\" title=\"the report as text\">\
copy report</button>\n</div>\n<section id=\"values\" aria-label=\"all values at the cursor\" hidden>\n<button id=\"close\" aria-l\
abel=\"no cursor\">×</button><h2 id=\"values-tick\"></h2>\n<dl id=\"values-list\"></dl>\n</section>\n<div id=\"live\" role=\"stat\
us\" aria-live=\"polite\"></div>\n<h2 id=\"lost\"></h2>\n<div id=\"losses\">\n<p id=\"pages\" class=\"pages\"><button id=\"earlie\
r\">earlier</button> <button id=\"later\">later</button> <span id=\"page-of\"></span></p>\n<table><thead><tr><th class=\"num\" sc\
ope=\"col\">no.</th><th scope=\"col\">the report's line</th><th class=\"num wide\" scope=\"col\">taken at</th><th class=\"wide\" \
scope=\"col\">what took it</th><th class=\"num\" scope=\"col\">ticks off</th></tr></thead>\n<tbody id=\"rows\"></tbody></table>\n\
</div>\n<details id=\"report-box\"><summary>the report</summary><pre id=\"report\"></pre></details>\n</div>\n</main>\n<!-- Here e\
nds the page. Behind it comes what rideview prints: the data of a ride as JSON. -->\n<script type=\"application/json\" id=\"ride\
\">\n";
