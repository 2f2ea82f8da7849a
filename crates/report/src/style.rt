//! The style of the page.

/// The style sheet: light and dark by what the reader's system prefers, and rows as blocks on a narrow screen.
pub const STYLE: &str = "\
:root{--ground:#fff;--text:#1b1f24;--soft:#59636e;--line:#d9dee3;--band:#f4f6f8;--u:#1552b8;--uw:#123f8f;
--ur:#6aa2f0;--ux:#2f74dd;--ut:#e9f1fd;--may:#c3dbfb;--p:#8a5200;--pw:#6e4100;--pr:#d9a24c;--px:#b8761a;
--pt:#fbf1e2;--refused:#c01622;--bus:#8226a8;--mpu:#0b7a5b;--sleep:#8b949e}
@media (prefers-color-scheme:dark){:root{--ground:#14171b;--text:#e4e8ec;--soft:#9aa5b1;--line:#333a42;
--band:#1d2228;--u:#7fb2ff;--uw:#cfe2ff;--ur:#3f7fd6;--ux:#7fb2ff;--ut:#16243a;--may:#1f3a63;--p:#f0b45c;
--pw:#ffe0ad;--pr:#a8752a;--px:#f0b45c;--pt:#2d2415;--refused:#ff7b80;--bus:#dc9bf5;--mpu:#4fd1a5;
--sleep:#7d8792}}
@media print{:root{--ground:#fff;--text:#000;--soft:#444;--line:#bbb;--band:#f4f6f8;--u:#1552b8;--uw:#123f8f;
--ur:#6aa2f0;--ux:#2f74dd;--ut:#e9f1fd;--may:#c3dbfb;--p:#8a5200;--pw:#6e4100;--pr:#d9a24c;--px:#b8761a;
--pt:#fbf1e2;--refused:#c01622;--bus:#8226a8;--mpu:#0b7a5b;--sleep:#8b949e}}
*{box-sizing:border-box}
html{-webkit-text-size-adjust:100%}
body{margin:0;background:var(--ground);color:var(--text);font:.94rem/1.45 system-ui,sans-serif;
-webkit-print-color-adjust:exact;print-color-adjust:exact}
main{max-width:1340px;margin:0 auto;padding:20px 24px 48px}
h1{font-size:1.6rem;margin:0 0 .3rem;overflow-wrap:anywhere;line-height:1.25}
h2{font-size:1.2rem;margin:0 0 .2rem}
h3{font-size:.95rem;margin:1.2rem 0 .4rem}
section{margin-top:2.2rem;border-top:1px solid var(--line);padding-top:1.2rem}
code,pre{font-family:ui-monospace,'DejaVu Sans Mono',Menlo,Consolas,monospace;font-size:.9em}
small,.caption,.scale{color:var(--soft);font-size:.86em}
.caption{margin:0 0 .8rem;max-width:62rem}
.ending{margin:.2rem 0 .8rem}
.stopped{color:var(--refused)}
.stopped::before{content:'✕ '}
.figures{display:flex;flex-wrap:wrap;gap:10px;margin:0 0 1rem}
.figures div{background:var(--band);border:1px solid var(--line);border-radius:6px;padding:8px 14px;min-width:8rem;
flex:1 1 8rem;max-width:14rem}
.figures dd{margin:0;font-size:1.35rem;font-weight:600;font-variant-numeric:tabular-nums}
.figures dt{color:var(--soft);font-size:.86rem}
nav{display:flex;flex-wrap:wrap;gap:4px 16px;font-size:.92rem}
nav a{color:var(--u)}
.name{color:var(--soft);overflow-wrap:anywhere}
.refused{color:var(--refused)}
.bus{color:var(--bus)}
.mpu{color:var(--mpu)}
span.u,li.u{color:var(--u)}
span.p,li.p{color:var(--p)}
.scroll{overflow-x:auto}
table{border-collapse:collapse;font-variant-numeric:tabular-nums}
th,td{padding:4px 7px;text-align:left;vertical-align:top;border-bottom:1px solid var(--line)}
th{font-weight:600}
thead th{color:var(--soft);font-size:.86rem;vertical-align:bottom}
thead th.u{color:var(--u)}
thead th.p{color:var(--p)}
.n,.numbers td,.numbers thead th+th,.numbers tr+tr th+th{text-align:right;white-space:nowrap}
.numbers thead th[colspan]{text-align:center}
.numbers td.u,.numbers th.u{background:var(--ut)}
.numbers td.p,.numbers th.p{background:var(--pt)}
.numbers th small{font-weight:400}
.numbers td span{display:block}
tbody th small{display:block;font-weight:400}
.zero{color:var(--soft)}
td div{white-space:nowrap;display:flex;justify-content:space-between;gap:.7rem}
td .bar{justify-content:flex-start;gap:0}
td.n{white-space:nowrap}
.off{color:var(--soft)}
.may th,.may td{border-left:1px solid var(--line)}
.may td{white-space:nowrap}
.may thead th small{display:block;color:var(--soft);font-weight:400;overflow-wrap:anywhere}
.may .sees{background:var(--ut)}
.may .changes{background:var(--may)}
#worlds b{background:var(--text);color:var(--ground);border-radius:4px;padding:0 5px;font-size:.86em;white-space:nowrap}
.shares{margin:.8rem 0 0;padding-left:1.2rem}
.code th small{display:inline}
.code .bars{width:14rem}
.bar{display:flex;gap:0;height:.8rem;margin-top:.25rem;background:var(--band)}
.bar i.u{background:var(--ux)}
.bar i.p{background:var(--px)}
.lanes{display:block}
.lane{display:flex;align-items:center;gap:10px;margin:3px 0}
.lane .label{flex:0 0 10.5rem;font-size:.86rem;color:var(--soft);text-align:right}
.lane svg{flex:1 1 0;min-width:0;height:18px;background:var(--band);display:block}
.lane path{fill:currentColor;stroke:currentColor;stroke-width:1px;vector-effect:non-scaling-stroke}
.lane svg.u{color:var(--u)}
.lane svg.p{color:var(--px)}
.lane svg.sleep{color:var(--sleep)}
.lane svg.refused{color:var(--refused)}
.lane svg.mpu{color:var(--mpu)}
.through{fill:none;stroke:var(--refused);stroke-width:1.5px;vector-effect:non-scaling-stroke}
.axis{flex:1 1 0;min-width:0;height:1.2rem;position:relative;font-size:.8rem;color:var(--soft);
font-variant-numeric:tabular-nums}
.axis span{position:absolute;transform:translateX(-50%)}
.axis .first{left:0;transform:none}
.axis .last{right:0;transform:none}
.cells{display:flex;gap:10px}
.addresses{flex:0 0 auto;color:var(--soft)}
.addresses code{display:block;height:30px;line-height:26px;font-size:.8rem}
.addresses .fold{height:18px;line-height:16px}
.cells svg{flex:1 1 0;min-width:0;display:block}
.ground{fill:var(--band)}
.cells rect{fill:transparent}
.may{fill:var(--may)}
.ur{fill:var(--ur)}
.uw{fill:var(--uw)}
.ux{fill:var(--ux)}
.pr{fill:var(--pr)}
.pw{fill:var(--pw)}
.px{fill:var(--px)}
.outline{fill:none;stroke:var(--refused);stroke-width:2px;vector-effect:non-scaling-stroke}
.legend{display:flex;flex-wrap:wrap;gap:6px 24px;margin:.2rem 0 .4rem}
.legend div{display:flex;gap:10px;align-items:flex-start}
.legend svg{width:56px;height:104px;flex:0 0 auto}
.legend ol{list-style:none;margin:0;padding:0;font-size:.82rem;min-width:0}
.legend li{height:16px;line-height:16px;white-space:nowrap}
.legend li:nth-child(4){margin-top:8px}
.registers{display:grid;grid-template-columns:repeat(auto-fill,minmax(17rem,1fr));gap:2px 20px;margin:0}
.registers.wide{grid-template-columns:1fr}
.registers div{display:flex;gap:10px;border-bottom:1px solid var(--line);padding:3px 0}
.registers dt{flex:0 0 6.2rem;color:var(--soft)}
.registers dd{margin:0;min-width:0;overflow-wrap:anywhere}
pre{background:var(--band);border:1px solid var(--line);border-radius:6px;padding:12px;margin:0;white-space:pre-wrap;
overflow-wrap:anywhere}
@media screen and (max-width:900px){
main{padding:14px 12px 32px}
.cards,.cards tbody{display:block}
.cards thead{display:none}
.cards tr{display:block;border:1px solid var(--line);border-radius:6px;padding:6px 10px;margin:0 0 8px}
.cards th,.cards td{display:block;border:0;padding:2px 0;text-align:left;white-space:normal}
.cards td{text-align:right;overflow:hidden}
.cards td::before{content:attr(data-label);color:var(--soft);float:left;margin-right:1rem}
.numbers td span,.cards td div{display:inline-block;margin-left:.8rem}
.cards td .bar{display:flex;margin-left:0}
.code .bars{width:auto}
h1{font-size:1.25rem}
.cards td.zero{display:none}
.cards.may thead,.cards.may thead tr{display:block}
.cards.may thead tr{border:0;padding:0}
.cards.may thead th{border:0}
.cards.may thead th:first-child{display:none}
.cards.may td{padding:2px 6px;margin-top:2px;border-radius:4px}
.cards.may td.zero{display:block}
.cards td.u,.cards td.p,.cards th.u{background:none}
.cards td.u::before{color:var(--u)}
.cards td.p::before{color:var(--p)}
.lane .label{flex-basis:6.2rem;font-size:.78rem}
.axis span[style]:nth-child(even){display:none}
.addresses code{font-size:.7rem}
}
@media print{main{max-width:none;padding:0}nav{display:none}.scroll{overflow:visible}th,td{padding:2px 4px}
tr,.lane,.figures,.cells{break-inside:avoid}html{font-size:11px}h2,h3,.caption{break-after:avoid}}
";
