//! How a picture looks.
ghost use Rattle.std.specs.Prelude.{◌≡◌};
ghost use Rattle.chart_mean.specs.Style as spec;

/// Fonts and colours, the sign of each kind of line, a white background, and a legend.
const STYLE: &[u8] = b"<style>
text { font: 10px 'DejaVu Sans', Verdana, Arial, sans-serif; fill: #241f31 }
g text { paint-order: stroke; stroke: #fff; stroke-width: 3px; stroke-linejoin: round }
.member { font-size: 14px; font-weight: bold; text-anchor: end }
g .number { font-size: 9px; fill: #5e5c64; text-anchor: middle }
.axis, g line { stroke: #9a9996 }
.untold rect { fill: #f6f5f4 }
.view0 rect { fill: #d8e7f8 }
.view1 rect { fill: #d9f0dc }
.view2 rect { fill: #fbeccb }
.view3 rect { fill: #eadcf3 }
.view4 rect { fill: #fadcd8 }
.view5 rect { fill: #d5eeee }
g .arrow { stroke: #3d3846; stroke-width: 1.2; marker-end: url(#tip) }
.stub path { stroke: #c01c28; stroke-dasharray: 3 2; fill: none; marker-end: url(#lost) }
.breach text { fill: #c01c28; font-weight: bold }
.breach use { stroke: #c01c28; stroke-width: 6 }
</style>
<defs>
<marker id='tip' viewBox='0 0 8 8' refX='11' refY='4' markerWidth='8' markerHeight='8' orient='auto' \
 markerUnits='userSpaceOnUse'>
<path d='M0 0 8 4 0 8z' fill='#3d3846'/></marker>
<marker id='lost' viewBox='-4 -4 8 8' markerWidth='8' markerHeight='8' markerUnits='userSpaceOnUse'>
<path d='M-3-3 3 3M-3 3 3-3' stroke='#c01c28' stroke-width='1.5'/></marker>
<circle id='event' r='3' fill='#241f31'/>
<path id='idle' d='M0-3V3' stroke='#9a9996'/>
<circle id='cast' r='5' fill='#1a5fb4'/>
<path id='send' d='M0-6 6 0 0 6-6 0z' fill='#1b7a4b'/>
<path id='packet' d='M-4-5 5 0-4 5z' fill='#613583'/>
<path id='view' d='M0-12V12' stroke='#613583' stroke-width='3'/>
<path id='out' d='M-5-5 5 5M-5 5 5-5' stroke='#a51d2d' stroke-width='3'/>
<path id='block' d='M-3-6V6M3-6V6' stroke='#8a4b00' stroke-width='3'/>
<path id='announce' d='M0-6 6 0 0 6-6 0z' fill='#fff' stroke='#613583' stroke-width='2'/>
<g id='timer'><circle r='5' fill='#fff' stroke='#5e5c64' stroke-width='1.5'/>
<path d='M0-3V0H3' fill='none' stroke='#5e5c64' stroke-width='1.5'/></g>
<g id='refused'><circle r='6' fill='#c01c28'/><path d='M-3 0H3' stroke='#fff' stroke-width='2'/></g>
<circle id='absent' r='5' fill='#fff' stroke='#5e5c64' stroke-width='1.5' stroke-dasharray='2'/>
<rect id='state' x='-5' y='-5' width='10' height='10' fill='#fff' stroke='#5e5c64' stroke-width='1.5'/>
<path id='cell' d='M0-4V4' stroke='#5e5c64' stroke-width='2'/>
<path id='deaf' d='M-6 5 0-6 6 5z' fill='#fff' stroke='#c01c28' stroke-width='2'/>
<path id='aside' d='M0-4V4' stroke='#5e5c64' stroke-width='2'/>
</defs>
<rect width='100%' height='100%' fill='#fff'/>
<g class='legend'><use href='#event' x='46' y='16'/><text x='56' y='20'>event</text>
<use href='#packet' x='106' y='16'/><text x='116' y='20'>packet sent</text>
<use href='#cast' x='196' y='16'/><text x='206' y='20'>cast delivered</text>
<use href='#send' x='296' y='16'/><text x='306' y='20'>send delivered</text>
<use href='#refused' x='402' y='16'/><text x='412' y='20'>refused</text>
<use href='#view' x='468' y='16'/><text x='476' y='20'>view</text>
<use href='#block' x='518' y='16'/><text x='527' y='20'>block</text>
<use href='#out' x='576' y='16'/><text x='586' y='20'>out</text>
<use href='#timer' x='622' y='16'/><text x='632' y='20'>timer asked for</text>
<g class='stub'><path d='M722 19l15-6'/></g><text x='746' y='20'>never arrived</text></g>
";

/// What a picture begins with inside: its style sheet, the signs that marks use, a white background, and a legend.
#[tactic(auto, unfolding(chart_mean::specs::Style::style))]
pub(crate) fn style() -> &'static [u8]
    ensures { result.now ≡ spec.style }
{
    STYLE
}
