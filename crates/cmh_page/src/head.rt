//! What stands before the lines of a page, its words and its style, and the checksums of editions 1 and 2. `scripts/page/make` writes this file.

pub const START: &str = "\
<!DOCTYPE html>
<html lang=\"en\">
<head>
<meta charset=\"utf-8\">
<meta http-equiv=\"Content-Security-Policy\" content=\"default-src 'none'; script-src '";

pub const BETWEEN: &str = "'; style-src '";

pub const STYLE: &str = "\
'; base-uri 'none'; form-action 'none'\">
<meta name=\"viewport\" content=\"width=device-width, initial-scale=1\">
<title>A run, step by step</title>
<style>:root{color-scheme:light dark;--paper:#fff;--ink:#111;--faint:#595959;--rule:#bbb;--soft:#f2f2f2;--act:#a9d5f0;--request:#005a94;--reply:#00664b;--probe:#9c4200;--alarm:#ffd08a;--edge:#b34700}
@media (prefers-color-scheme:dark){:root{--paper:#16181b;--ink:#eee;--faint:#b3b3b3;--rule:#555;--soft:#24272b;--act:#1d567c;--request:#7cc4f5;--reply:#6fd6b4;--probe:#f5ae78;--alarm:#7a4a00;--edge:#ffb066}}
*{box-sizing:border-box}
body{margin:0 auto;padding:.6rem;max-width:120rem;background:var(--paper);color:var(--ink);font:1rem/1.4 system-ui,sans-serif}
h1{font-size:1.25rem;margin:0}
h2{font-size:1rem;margin:.2rem 0}
p{margin:.3rem 0}
header p{color:var(--faint)}
main{display:grid;gap:.6rem;grid-template-columns:minmax(0,1fr)}
section{min-width:0}
.what,#told{border:1px solid var(--rule);border-radius:.4rem;padding:.5rem}
#told{min-height:8.5rem;background:var(--soft)}
#line{font-family:ui-monospace,monospace;overflow-wrap:anywhere}
#controls{position:sticky;top:0;z-index:1;background:var(--paper);display:flex;flex-wrap:wrap;gap:.5rem;align-items:center;padding:.3rem 0}
.buttons{display:flex;gap:.3rem}
button{font:inherit;min-width:2.75rem;min-height:2.75rem;background:var(--soft);color:var(--ink);border:1px solid var(--faint);border-radius:.4rem;cursor:pointer}
button:disabled{opacity:.45;cursor:default}
button:focus-visible,input:focus-visible{outline:3px solid var(--edge);outline-offset:1px}
#slider{flex:1 1 9rem;min-width:6rem;min-height:2.75rem}
#moment{min-width:6rem;text-align:right;font-variant-numeric:tabular-nums}
#diagram,.scroll{overflow:auto;max-height:70vh}
#graph{max-width:26rem;margin:auto}
svg{display:block}
#graph svg{width:100%;height:auto}
ul{margin:.2rem 0;padding-left:1.2rem}
#waits,#way{display:grid;grid-template-columns:repeat(auto-fill,minmax(min(14rem,100%),1fr));column-gap:1.5rem;max-height:16rem;overflow:auto}
table{border-collapse:collapse;width:100%;table-layout:fixed}
th:first-child{width:4.5rem}
th,td{border:1px solid var(--rule);padding:.2rem .4rem;text-align:left;vertical-align:top;font-weight:normal}
thead th{font-weight:bold}
td{overflow-wrap:anywhere}
tr.now th,tr.now td{background:var(--soft);font-weight:bold}
.key{color:var(--faint);font-size:.8rem}
.key span{display:inline-block;margin-right:.8rem}
text{fill:var(--ink);font:11px system-ui,sans-serif;stroke:var(--paper);stroke-width:3;paint-order:stroke}
.lane{stroke:var(--rule);stroke-width:1.5}
.name{font-weight:bold}
.mid{text-anchor:middle}
.inside{stroke:none}
.mark{fill:var(--paper);stroke:var(--ink);stroke-width:1.5}
.act{fill:var(--act)}
.ignored{stroke-dasharray:3 2}
.declared{fill:var(--alarm);stroke:var(--edge);stroke-width:3}
.now{stroke-width:4}
.request,.reply,.probe{fill:none;stroke-width:1.6}
.request{stroke:var(--request)}
.reply{stroke:var(--reply);stroke-dasharray:8 4}
.probe{stroke:var(--probe);stroke-dasharray:2 3}
.head.request,.head.reply,.head.probe{stroke:none}
.head.request,.say.request{fill:var(--request)}
.head.reply,.say.reply{fill:var(--reply)}
.head.probe,.say.probe{fill:var(--probe)}
.say,.ring{stroke-dasharray:none}
.say{stroke:var(--paper);stroke-width:3;font-weight:bold}
.ring{fill:var(--paper);stroke:var(--ink);stroke-width:1.5}
.cross{stroke:var(--ink);stroke-width:3;fill:none}
.wait{fill:none;stroke:var(--faint);stroke-width:1.6;stroke-dasharray:6 4}
.cycle{fill:none;stroke:var(--edge);stroke-width:4}
.head{fill:var(--faint)}
.head.thick{fill:var(--edge)}
.group{fill:none;stroke:var(--rule);stroke-width:2}
@media (min-width:60rem){main{grid-template-columns:minmax(0,3fr) minmax(0,2fr);grid-template-rows:auto auto auto 1fr}#controls,#told{grid-column:1/-1}#waiting{grid-column:2;grid-row:3/5}#happened,#knowing{grid-column:1}#travelling{grid-column:1/-1}}
@media print{:root{--paper:#fff;--ink:#000;--faint:#333;--rule:#999;--soft:#fff}#controls{display:none}main{display:block}.what,#told{break-inside:avoid;margin-bottom:.6rem}#diagram,.scroll,#waits,#way{max-height:none;overflow:visible}}";

pub const END: &str = "\
</style>
</head>
<body>
<header>
<h1>A run, step by step</h1>
<p id=\"verdict\"></p>
</header>
<noscript><p>This page needs JavaScript, which it has inside. Its source ends with the lines of the run.</p></noscript>
<main>
<section id=\"controls\" aria-label=\"Moment\">
<div class=\"buttons\">
<button type=\"button\" id=\"first\" aria-label=\"To the start\" title=\"To the start (Home)\">&#8676;</button>
<button type=\"button\" id=\"back\" aria-label=\"Back\" title=\"Back (left arrow)\">&#8592;</button>
<button type=\"button\" id=\"play\" title=\"Play or pause (space)\">Play</button>
<button type=\"button\" id=\"forth\" aria-label=\"Forward\" title=\"Forward (right arrow)\">&#8594;</button>
<button type=\"button\" id=\"last\" aria-label=\"To the end\" title=\"To the end (End)\">&#8677;</button>
</div>
<input type=\"range\" id=\"slider\" min=\"0\" value=\"0\" step=\"1\" aria-label=\"Moment\">
<output id=\"moment\" for=\"slider\"></output>
</section>
<section id=\"told\" aria-live=\"polite\" aria-atomic=\"true\">
<h2 id=\"title\"></h2>
<p id=\"line\"></p>
<div id=\"words\"></div>
</section>
<section class=\"what\" id=\"happened\">
<h2>What happened</h2>
<div id=\"diagram\"></div>
<p class=\"key\"><span>disk: a step</span> <span>square: a frame came, dashed if it is a probe that was ignored</span> <span>octagon: declared</span> <span>solid: request</span> <span>dashed: reply</span> <span>dotted: probe</span> <span>ring: under way</span> <span>cross: no run gets further</span></p>
</section>
<section class=\"what\" id=\"waiting\">
<h2>Who waits for whom</h2>
<div id=\"graph\"></div>
<ul id=\"waits\"></ul>
<p class=\"key\"><span>dashed: waits for</span> <span>thick: on the cycle of a declared process</span> <span>octagon: declared</span></p>
</section>
<section class=\"what\" id=\"knowing\">
<h2>What each controller knows</h2>
<div class=\"scroll\"><table>
<thead><tr><th scope=\"col\">site</th><th scope=\"col\">waits</th><th scope=\"col\">owed</th><th scope=\"col\">dependents</th><th scope=\"col\">declared</th></tr></thead>
<tbody id=\"known\"></tbody>
</table></div>
<p class=\"key\"><span>waits 1&#8201;2: 1 waits for 2</span> <span>owed 2&#8201;1: 2 owes 1 a reply</span> <span>dependents 2&#8201;1: 1 is known to depend on 2</span></p>
</section>
<section class=\"what\" id=\"travelling\">
<h2>Frames under way</h2>
<ul id=\"way\"></ul>
</section>
</main>
<script type=\"text/plain\" id=\"run\">
";

pub const SCRIPT_SUM: &str = "sha256-fxBt61S/F0uA4TplcLcTdm5OsVXTeWapxJxkby0MZ1M=";

pub const STYLE_SUM: &str = "sha256-8pEOcaw/0o2Z4aRFxBsmk1RwHAcc3Rn0HLvcGr7io5E=";
