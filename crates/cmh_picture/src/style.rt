//! What stands before the marks of an SVG. It draws nothing of the journals.

/// The heads of arrows, the ends of frames that nobody got, and the colours and dashes of all marks.
pub const STYLE: &str = "\
<rect width='100%' height='100%' fill='#fff'/>
<defs><style>
text{font:12px sans-serif;paint-order:stroke;stroke:#fff;stroke-width:3px}
path{fill:none;stroke:#000;stroke-width:2;stroke-linejoin:round}
.site path,.site rect{stroke:#999}
.site rect{fill:#f4f4f4}
.process path,.got path{fill:#fff}
.act path{fill:#56B4E9}
.declared path{fill:#E69F00;stroke:#D55E00;stroke-width:3}
.number,.middle{text-anchor:middle;stroke:none}
.number{font-size:9px}
.step,.got text,.declared text,.open text{text-anchor:end}
.act .number,.got .number,.declared .number,.declared .middle{text-anchor:middle}
.who,.declared .middle{font-weight:bold}
.request,.reply,.probe{font-size:11px}
text.request{fill:#0072B2}
text.reply{fill:#007A59}
text.probe{fill:#B34E00}
.request path{stroke:#0072B2;marker-end:url(#request)}
.reply path{stroke:#009E73;stroke-dasharray:9 5;marker-end:url(#reply)}
.probe path{stroke:#D55E00;stroke-dasharray:2 3;marker-end:url(#probe)}
.open path{stroke-dasharray:none;marker-end:url(#open)}
.wait path{stroke-dasharray:6 4;marker-end:url(#wait)}
.cycle path{stroke:#D55E00;stroke-width:4;marker-end:url(#cycle)}
.stop path{stroke-width:3}
</style>
<marker id='request' refX='10' refY='4' markerWidth='10' markerHeight='8' markerUnits='userSpaceOnUse' orient='auto'>
<polygon points='0,0 10,4 0,8' fill='#0072B2'/></marker>
<marker id='reply' refX='10' refY='4' markerWidth='10' markerHeight='8' markerUnits='userSpaceOnUse' orient='auto'>
<polygon points='0,0 10,4 0,8' fill='#009E73'/></marker>
<marker id='probe' refX='10' refY='4' markerWidth='10' markerHeight='8' markerUnits='userSpaceOnUse' orient='auto'>
<polygon points='0,0 10,4 0,8' fill='#D55E00'/></marker>
<marker id='open' refX='5' refY='5' markerWidth='10' markerHeight='10' markerUnits='userSpaceOnUse'>
<circle cx='5' cy='5' r='3' fill='#fff' stroke='#000'/></marker>
<marker id='wait' refX='4' refY='5' markerWidth='12' markerHeight='10' markerUnits='userSpaceOnUse' orient='auto'>
<polygon points='0,0 12,5 0,10'/></marker>
<marker id='cycle' refX='6' refY='6' markerWidth='14' markerHeight='12' markerUnits='userSpaceOnUse' orient='auto'>
<polygon points='0,0 14,6 0,12' fill='#D55E00'/></marker></defs>
";

/// What the shapes, colours and dashes of waits mean.
pub const WAITS_LEGEND: &str = "\
<title>Who waits for whom at the end</title>
<g class='process'><path d='M40 22a8 8 0 1 0 16 0a8 8 0 1 0 -16 0'/><text x='64' y='26'>process</text></g>
<g class='process'><g class='declared'><path d='M144 14h8l6 6v8l-6 6h-8l-6 -6v-8z'/></g><text x='170' y='26'>declared deadlocked</text></g>
<path d='M316 22h30' stroke-dasharray='6 4'/><text x='354' y='26'>waits for</text>
<g class='declared'><path d='M40 44h30'/></g><text x='78' y='48'>waits for, on the cycle of a declared one</text>
";

/// What those of a run mean.
pub const RUN_LEGEND: &str = "\
<title>A run: a line a site, a mark an entry, an arrow a frame</title>
<g class='act'><path d='M20 22a8 8 0 1 0 16 0a8 8 0 1 0 -16 0'/></g><text x='44' y='26'>step</text>
<g class='got'><path d='M96 14h16v16h-16z'/></g><text x='120' y='26'>frame came</text>
<g class='declared'><path d='M220 12h8l6 6v8l-6 6h-8l-6 -6v-8z'/></g><text x='244' y='26'>declared</text>
<path d='M318 16l14 14m0 -14l-14 14'/><text x='342' y='26'>no run gets further</text>
<g class='request'><path d='M20 48h40'/></g><text x='68' y='52'>request</text>
<g class='reply'><path d='M134 48h40'/></g><text x='182' y='52'>reply</text>
<g class='probe'><path d='M236 48h40'/></g><text x='284' y='52'>probe</text>
<g class='open'><path d='M346 48h34'/></g><text x='394' y='52'>nobody got it: lost or waiting</text>
";

/// What is added where processes may withdraw: to the legend of waits.
pub const WAITS_MORE: &str = "\
<style>
.over path{fill:#fff;stroke:#D55E00;stroke-width:2}
.over text{text-anchor:middle}
.leaving path{stroke:#CC79A7;stroke-dasharray:2 4;marker-end:url(#wait)}
.leaving .cross{stroke:#A2487A;stroke-width:3;stroke-dasharray:none;marker-end:none}
</style>
<g class='over'><path d='M424 14h8l6 6v8l-6 6h-8l-6 -6v-8z'/></g><text x='450' y='26'>its cycle was left</text>
<g class='leaving'><path d='M340 44h30'/><path class='cross' d='M348 37l14 14m0 -14l-14 14'/></g><text x='390' y='48'>gave it up, no answer yet</text>
";

/// And to that of a run.
pub const RUN_MORE: &str = "\
<style>
.over path{fill:#fff;stroke:#D55E00;stroke-width:2}
.withdrawal path{fill:#CC79A7}
.withdrawal .step{text-anchor:end;font-weight:bold}
.withdrawal .number{text-anchor:middle}
.withdraw{font-size:11px}
text.withdraw{fill:#A2487A}
.withdraw path{stroke:#CC79A7;stroke-width:3;stroke-dasharray:9 3 2 3;marker-end:url(#withdraw)}
.open path{stroke-dasharray:none;marker-end:url(#open)}
</style>
<defs><marker id='withdraw' refX='10' refY='5' markerWidth='10' markerHeight='10' markerUnits='userSpaceOnUse' orient='auto'>
<polygon points='0,0 10,5 0,10' fill='#CC79A7'/></marker></defs>
<g class='withdrawal'><path d='M28 60l12 12l-12 12l-12 -12z'/></g><text x='48' y='76'>withdraws</text>
<g class='declared'><g class='over'><path d='M138 60h8l6 6v8l-6 6h-8l-6 -6v-8z'/></g></g><text x='164' y='76'>declared, no longer</text>
<g class='withdraw'><path d='M286 72h40'/></g><text x='334' y='76'>withdraw</text>
";
