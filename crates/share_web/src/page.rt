//! The page. The script tools/web_page writes this file from page/page.html.
ghost use Rattle.std.specs.Prelude.{◌≡◌};
ghost use Rattle.share_web.specs.Page.{common_fields};

/// The text of the page.
pub const PAGE: &[u8] = b"\
<!doctype html>\n\
<html lang=\"en\">\n\
<head>\n\
<meta charset=\"utf-8\">\n\
<meta name=\"viewport\" content=\"width=device-width, initial-scale=1\">\n\
<title>Stridelink gateway</title>\n\
<link rel=\"icon\" href=\"data:,\">\n\
<style>\n\
:root {\n\
\x20 color-scheme: light dark;\n\
\x20 --paper: #fff; --ink: #1b1f24; --soft: #57606a; --line: #d0d7de; --field: #f3f5f7;\n\
\x20 --sent: #0b62c4; --due: #1b1f24; --good: #116329; --bad: #a40e26; --focus: #b35900;\n\
}\n\
@media (prefers-color-scheme: dark) {\n\
\x20 :root {\n\
\x20   --paper: #0f1419; --ink: #e6e9ec; --soft: #a5b0bb; --line: #3a434d; --field: #1a2129;\n\
\x20   --sent: #58a6ff; --due: #e6e9ec; --good: #6fdd8b; --bad: #ff9492; --focus: #ffb454;\n\
\x20 }\n\
}\n\
* { box-sizing: border-box; }\n\
body { margin: 0; background: var(--paper); color: var(--ink); font: 1rem/1.45 system-ui, sans-serif; }\n\
main, header, footer { max-width: 92rem; margin: 0 auto; padding: 0.5rem 1rem; }\n\
h1 { font-size: 1.4rem; margin: 0.5rem 0; }\n\
h2 { font-size: 1.1rem; margin: 1.25rem 0 0.5rem; }\n\
a { color: var(--sent); }\n\
a:focus-visible, button:focus-visible { outline: 3px solid var(--focus); outline-offset: 2px; }\n\
button { font: inherit; color: inherit; background: var(--field); border: 1px solid var(--soft); border-radius: 0.3rem\
;\n\
\x20 padding: 0.25rem 0.8rem; min-height: 2rem; cursor: pointer; }\n\
button[aria-pressed=\"true\"] { color: var(--paper); background: var(--ink); }\n\
.top { display: flex; flex-wrap: wrap; gap: 0.5rem 1rem; align-items: center; justify-content: space-between; }\n\
.state { margin: 0.25rem 0; font-weight: 600; }\n\
.state::before { content: \"\\25CB\\A0\" / \"\"; }\n\
.state.good { color: var(--good); }\n\
.state.good::before { content: \"\\25CF\\A0\" / \"\"; }\n\
.state.bad { color: var(--bad); }\n\
.state.bad::before { content: \"\\25B2\\A0\" / \"\"; }\n\
dl { display: grid; grid-template-columns: repeat(auto-fill, minmax(10.5rem, 1fr)); gap: 0.5rem; margin: 0.75rem 0; }\
\n\
dl div { background: var(--field); border: 1px solid var(--line); border-radius: 0.3rem; padding: 0.4rem 0.6rem; }\n\
dt { color: var(--soft); font-size: 0.85rem; }\n\
dd { margin: 0; font-variant-numeric: tabular-nums; overflow-wrap: anywhere; }\n\
table { border-collapse: collapse; width: 100%; font-variant-numeric: tabular-nums; }\n\
caption { text-align: left; color: var(--soft); padding: 0 0 0.4rem; }\n\
th, td { padding: 0.35rem 0.6rem; text-align: right; border-bottom: 1px solid var(--line); vertical-align: top; }\n\
thead th { color: var(--soft); font-size: 0.85rem; vertical-align: bottom; }\n\
th:first-child, td.text, th.text { text-align: left; }\n\
tbody th { font-weight: 600; }\n\
td.share { min-width: 11rem; }\n\
.bar { position: relative; display: block; height: 0.7rem; margin-top: 0.2rem; background: var(--field);\n\
\x20 border: 1px solid var(--soft); border-radius: 0.2rem; }\n\
.bar i { position: absolute; inset: 0 auto 0 0; width: calc(var(--part, 0) * 100%); background: var(--sent); }\n\
.bar b { position: absolute; top: -0.25rem; bottom: -0.25rem; left: calc(var(--part, 0) * 100%); width: 3px;\n\
\x20 margin-left: -1px; background: var(--due); }\n\
footer { color: var(--soft); font-size: 0.85rem; border-top: 1px solid var(--line); margin-top: 1.5rem; }\n\
@media (max-width: 60rem) {\n\
\x20 thead { position: absolute; width: 1px; height: 1px; overflow: hidden; clip-path: inset(50%); white-space: nowrap\
; }\n\
\x20 table, tbody, caption { display: block; }\n\
\x20 tbody tr { display: grid; grid-template-columns: repeat(2, minmax(0, 1fr)); border: 1px solid var(--line);\n\
\x20   border-radius: 0.3rem; margin-bottom: 0.75rem; padding: 0.3rem 0; }\n\
\x20 tbody th { grid-column: 1 / -1; text-align: left; }\n\
\x20 tbody th, td { border-bottom: 0; padding: 0.2rem 0.6rem; }\n\
\x20 td, td.text { text-align: left; overflow-wrap: anywhere; }\n\
\x20 td::before { content: attr(data-of) / \"\"; display: block; color: var(--soft); font-size: 0.8rem; }\n\
\x20 td.share { min-width: 0; grid-column: 1 / -1; }\n\
}\n\
</style>\n\
</head>\n\
<body>\n\
<header>\n\
<div class=\"top\">\n\
<h1>Stridelink gateway</h1>\n\
<button id=\"pause\" type=\"button\" aria-pressed=\"false\">Pause</button>\n\
</div>\n\
<p class=\"state\" id=\"uplink\" role=\"status\" aria-live=\"polite\">The uplink is not known yet.</p>\n\
<p class=\"state bad\" id=\"fault\" role=\"alert\" hidden></p>\n\
</header>\n\
<main>\n\
<noscript><p>The numbers on this page need its script. <a href=\"/status.json\">The status</a>,\n\
<a href=\"/metrics\">the metrics</a> and <a href=\"/books.csv\">the last books</a> have them too.</p></noscript>\n\
<h2 id=\"gateway\">Gateway</h2>\n\
<dl aria-labelledby=\"gateway\">\n\
<div><dt>Rate of the uplink</dt><dd id=\"rate\">&ndash;</dd></div>\n\
<div><dt>Limit of the rate</dt><dd id=\"limit\">&ndash;</dd></div>\n\
<div><dt>Bytes that wait for the uplink</dt><dd id=\"outbox\">&ndash;</dd></div>\n\
<div><dt>Bytes that may be lost</dt><dd id=\"lost\">&ndash;</dd></div>\n\
<div><dt>Open book</dt><dd id=\"book\">&ndash;</dd></div>\n\
<div><dt>Opened</dt><dd id=\"opened\">&ndash;</dd></div>\n\
<div><dt>Events left</dt><dd id=\"left\">&ndash;</dd></div>\n\
<div><dt>Disk</dt><dd id=\"disk\">&ndash;</dd></div>\n\
</dl>\n\
<h2 id=\"tenants\">Tenants</h2>\n\
<table role=\"table\" aria-labelledby=\"tenants\">\n\
<caption>The bar is the share of the last ten seconds, and the mark on it the share of the tickets.</caption>\n\
<thead role=\"rowgroup\"><tr role=\"row\">\n\
<th role=\"columnheader\" scope=\"col\">Tenant</th>\n\
<th role=\"columnheader\" scope=\"col\">Share sent</th>\n\
<th role=\"columnheader\" scope=\"col\">Share of tickets</th>\n\
<th role=\"columnheader\" scope=\"col\">Rate</th>\n\
<th role=\"columnheader\" scope=\"col\">Packets waiting</th>\n\
<th role=\"columnheader\" scope=\"col\">Amount in this book</th>\n\
<th role=\"columnheader\" scope=\"col\" class=\"text\">Held</th>\n\
<th role=\"columnheader\" scope=\"col\">Connections</th>\n\
<th role=\"columnheader\" scope=\"col\">Dropped by its ports</th>\n\
</tr></thead>\n\
<tbody role=\"rowgroup\" id=\"rows\"></tbody>\n\
</table>\n\
<h2 id=\"closed\">Last books</h2>\n\
<table role=\"table\" aria-labelledby=\"closed\">\n\
<thead role=\"rowgroup\"><tr role=\"row\">\n\
<th role=\"columnheader\" scope=\"col\">Book</th>\n\
<th role=\"columnheader\" scope=\"col\" class=\"text\">Opened</th>\n\
<th role=\"columnheader\" scope=\"col\" class=\"text\">Closed</th>\n\
<th role=\"columnheader\" scope=\"col\" class=\"text\">Closed by</th>\n\
<th role=\"columnheader\" scope=\"col\">Packets</th>\n\
<th role=\"columnheader\" scope=\"col\">Bytes</th>\n\
<th role=\"columnheader\" scope=\"col\">Amount</th>\n\
</tr></thead>\n\
<tbody role=\"rowgroup\" id=\"books\"></tbody>\n\
</table>\n\
<p id=\"none\" hidden>No book is closed yet.</p>\n\
</main>\n\
<footer><p><a href=\"/status.json\">Status as JSON</a> &middot; <a href=\"/metrics\">Metrics</a> &middot;\n\
<a href=\"/books.csv\">Last books as CSV</a></p><p id=\"made\"></p></footer>\n\
<script>\n\
\"use strict\";\n\
const WINDOW = 10000, SECOND = 1000, PATIENCE = 5000;\n\
const at = (id) => document.getElementById(id);\n\
const samples = [];\n\
let book = null, booksDue = 0, isPaused = false;\n\
\n\
const set = (node, text) => { if (node.textContent !== text) node.textContent = text; };\n\
const grouped = (number) => String(number).replace(/\\B(?=(\\d{3})+$)/g, \"\\u202F\");\n\
const timed = (text) => text.replace(\"T\", \" \").replace(\"Z\", \" UTC\");\n\
const percent = (part) => part === null ? \"\\u2013\" : (part * 100).toFixed(1) + \"\\u202F%\";\n\
const rated = (bytes) => {\n\
\x20 if (bytes === null) return \"\\u2013\";\n\
\x20 const units = [\"bit/s\", \"kbit/s\", \"Mbit/s\", \"Gbit/s\"];\n\
\x20 let value = bytes * 8, place = 0;\n\
\x20 while (value >= 1000 && place < 3) { value /= 1000; place += 1; }\n\
\x20 return (place ? value.toFixed(value < 100 ? 1 : 0) : Math.round(value)) + \"\\u202F\" + units[place];\n\
};\n\
\n\
// An amount may be greater than a number of the script is exact for.\n\
const exact = (key, value, context) =>\n\
\x20 key === \"amount\" && !Number.isSafeInteger(value) && context?.source ? context.source : value;\n\
\n\
// Bytes a second of each tenant over at most the last ten seconds, by name; null before there are two samples.\n\
const rates = (status, now) => {\n\
\x20 const sent = new Map(status.tenants.map((tenant) => [tenant.name, tenant.sent_bytes]));\n\
\x20 const last = samples.at(-1);\n\
\x20 if (last && [...sent].some(([name, bytes]) => bytes < (last.sent.get(name) ?? 0))) samples.length = 0;\n\
\x20 samples.push({ now, sent });\n\
\x20 while (samples.length > 2 && samples[1].now <= now - WINDOW) samples.shift();\n\
\x20 const { now: since, sent: before } = samples[0];\n\
\x20 if (now - since < SECOND / 2) return null;\n\
\x20 return new Map([...sent].map(([name, bytes]) =>\n\
\x20   [name, (bytes - (before.get(name) ?? 0)) * SECOND / (now - since)]));\n\
};\n\
\n\
const cell = (row, of, kind) => {\n\
\x20 const node = document.createElement(\"td\");\n\
\x20 node.setAttribute(\"role\", \"cell\");\n\
\x20 node.dataset.of = of;\n\
\x20 if (kind) node.className = kind;\n\
\x20 row.append(node);\n\
\x20 return node;\n\
};\n\
\n\
const bar = (node) => {\n\
\x20 const text = document.createElement(\"span\"), track = document.createElement(\"span\");\n\
\x20 track.className = \"bar\";\n\
\x20 track.setAttribute(\"aria-hidden\", \"true\");\n\
\x20 track.append(document.createElement(\"i\"), document.createElement(\"b\"));\n\
\x20 node.append(text, track);\n\
};\n\
\n\
const COLUMNS = [[\"Share sent, last 10 s\", \"share\"], [\"Share of tickets\", \"\"], [\"Rate\", \"\"], [\"Packets wa\
iting\", \"\"],\n\
\x20 [\"Amount in this book\", \"\"], [\"Held\", \"text\"], [\"Connections\", \"\"], [\"Dropped by its ports\", \"\"]]\
;\n\
const BOOKS = [[\"Opened\", \"text\"], [\"Closed\", \"text\"], [\"Closed by\", \"text\"], [\"Packets\", \"\"], [\"Byte\
s\", \"\"],\n\
\x20 [\"Amount\", \"\"]];\n\
\n\
// The row of this place in a table, with a cell for each column.\n\
const rowOf = (body, place, columns) => {\n\
\x20 if (body.rows[place]) return body.rows[place];\n\
\x20 const row = document.createElement(\"tr\"), head = document.createElement(\"th\");\n\
\x20 row.setAttribute(\"role\", \"row\");\n\
\x20 head.setAttribute(\"role\", \"rowheader\");\n\
\x20 head.scope = \"row\";\n\
\x20 row.append(head);\n\
\x20 for (const [of, kind] of columns) {\n\
\x20   const node = cell(row, of, kind);\n\
\x20   if (kind === \"share\") bar(node);\n\
\x20 }\n\
\x20 body.append(row);\n\
\x20 return row;\n\
};\n\
\n\
const fill = (row, texts) => texts.forEach((text, place) => {\n\
\x20 const node = row.cells[place];\n\
\x20 set(node.classList.contains(\"share\") ? node.firstChild : node, text);\n\
});\n\
\n\
const cut = (body, count) => { while (body.rows.length > count) body.lastChild.remove(); };\n\
\n\
const showTenants = (tenants, speeds) => {\n\
\x20 const body = at(\"rows\");\n\
\x20 const total = speeds && [...speeds.values()].reduce((sum, speed) => sum + speed, 0);\n\
\x20 const due = tenants.reduce((sum, tenant) => sum + (tenant.held ? 0 : tenant.tickets), 0);\n\
\x20 tenants.forEach((tenant, place) => {\n\
\x20   const row = rowOf(body, place, COLUMNS);\n\
\x20   const speed = speeds ? speeds.get(tenant.name) : null;\n\
\x20   const share = total ? speed / total : null;\n\
\x20   const ticketed = tenant.held || !due ? 0 : tenant.tickets / due;\n\
\x20   fill(row, [tenant.name, percent(share), percent(ticketed), rated(speed),\n\
\x20     grouped(tenant.waiting) + \" of \" + grouped(tenant.limit), grouped(tenant.amount), tenant.held ? \"held\" : \
\"no\",\n\
\x20     grouped(tenant.connections), grouped(tenant.dropped)]);\n\
\x20   const [sent, mark] = row.cells[1].lastChild.children;\n\
\x20   sent.style.setProperty(\"--part\", share ?? 0);\n\
\x20   mark.style.setProperty(\"--part\", ticketed);\n\
\x20 });\n\
\x20 cut(body, tenants.length);\n\
\x20 return total;\n\
};\n\
\n\
const showUplink = (uplink) => {\n\
\x20 const node = at(\"uplink\");\n\
\x20 if (!uplink) {\n\
\x20   node.className = \"state\";\n\
\x20   return set(node, \"There is no uplink.\");\n\
\x20 }\n\
\x20 const isUp = uplink.state === \"up\";\n\
\x20 node.className = isUp ? \"state good\" : \"state bad\";\n\
\x20 set(node, (isUp ? \"The uplink is up: \" : \"The uplink is dialled: \") + uplink.address);\n\
};\n\
\n\
const show = (status, now) => {\n\
\x20 const total = showTenants(status.tenants, rates(status, now));\n\
\x20 showUplink(status.uplink);\n\
\x20 set(at(\"rate\"), rated(total));\n\
\x20 set(at(\"limit\"), status.rate === null ? \"none\" : rated(status.rate));\n\
\x20 set(at(\"outbox\"), status.uplink ? grouped(status.uplink.outbox) : \"\\u2013\");\n\
\x20 set(at(\"lost\"), status.uplink ? grouped(status.uplink.lost) : \"\\u2013\");\n\
\x20 set(at(\"book\"), grouped(status.book));\n\
\x20 set(at(\"opened\"), timed(status.opened));\n\
\x20 set(at(\"left\"), grouped(status.left));\n\
\x20 set(at(\"disk\"), status.disk.fault === null ? \"writes\" : \"fails: \" + status.disk.fault);\n\
\x20 set(at(\"made\"), \"stridelink \" + status.version + \", proved with \" + status.proved);\n\
};\n\
\n\
const showBooks = (text) => {\n\
\x20 const [head, ...lines] = text.trimEnd().split(\"\\n\").map((line) => line.split(\",\"));\n\
\x20 const column = (line, name) => line[head.indexOf(name)] ?? \"\";\n\
\x20 const body = at(\"books\");\n\
\x20 lines.reverse().forEach((line, place) => fill(rowOf(body, place, BOOKS), [\n\
\x20   grouped(column(line, \"book\")), timed(column(line, \"opened\")), timed(column(line, \"closed\")), column(line,\
\x20\"why\"),\n\
\x20   grouped(column(line, \"packets\")), grouped(column(line, \"bytes\")), grouped(column(line, \"amount\"))]));\n\
\x20 cut(body, lines.length);\n\
\x20 at(\"none\").hidden = lines.length > 0;\n\
};\n\
\n\
const read = async (path) => {\n\
\x20 const answer = await fetch(path, { cache: \"no-store\", signal: AbortSignal.timeout(PATIENCE) });\n\
\x20 if (!answer.ok) throw new Error(\"answer \" + answer.status);\n\
\x20 return answer.text();\n\
};\n\
\n\
const showFault = (fault) => {\n\
\x20 const node = at(\"fault\");\n\
\x20 node.hidden = !fault;\n\
\x20 set(node, fault ? \"The gateway does not answer (\" + fault.message + \"). The numbers are old.\" : \"\");\n\
};\n\
\n\
const step = async () => {\n\
\x20 const text = await read(\"/status.json\");\n\
\x20 const now = performance.now(), status = JSON.parse(text, exact);\n\
\x20 show(status, now);\n\
\x20 if (status.book !== book || now >= booksDue) {\n\
\x20   showBooks(await read(\"/books.csv\"));\n\
\x20   [book, booksDue] = [status.book, now + WINDOW];\n\
\x20 }\n\
};\n\
\n\
const run = async () => {\n\
\x20 if (!isPaused) await step().then(() => showFault(null), showFault);\n\
\x20 setTimeout(run, SECOND);\n\
};\n\
\n\
at(\"pause\").addEventListener(\"click\", (event) => {\n\
\x20 isPaused = !isPaused;\n\
\x20 samples.length = 0;\n\
\x20 event.target.setAttribute(\"aria-pressed\", String(isPaused));\n\
});\n\
run();\n\
</script>\n\
</body>\n\
</html>\n";

/// The fields that each answer has. The policy allows the page its own style and script, and nothing else.
#[tactic(auto, unfolding(crate::specs::Page::common_fields))]
pub(crate) fn common_fields() -> &'static [u8]
    ensures { result.now ≡ common_fields }
{
    b"\
Connection: close\r\n\
Cache-Control: no-store\r\n\
X-Content-Type-Options: nosniff\r\n\
Referrer-Policy: no-referrer\r\n\
Cross-Origin-Resource-Policy: same-origin\r\n\
Content-Security-Policy: default-src 'none'; connect-src 'self'; img-src data:; base-uri 'none'; form-action 'none'; f\
rame-ancestors 'none'; style-src 'sha256-rmAlRAPAW8mgLDvpp22lPKPQgkzTRvIhG9vAY+qwgFg='; script-src 'sha256-lVgxhDOJRHh\
Cn6tpC8qt/wqVcNohvZBJABT8AQBfwek='\r\n"
}
