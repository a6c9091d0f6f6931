//! The looks of the inks, and what stands above each drawing.
ghost use Rattle.std.specs.Prelude.{◌≡◌};
ghost use Rattle.sat_draw.specs.Legend.{legend};

const LEGEND: &str = "\
<desc>Time goes downwards, and each act has a row. A full mark is an act that was done, an empty one an act\n\
that changed nothing. Each mark has its act and its answer as a title, and each line what goes\n\
there.</desc>\n\
<style>\n\
svg{font:11px ui-monospace,Menlo,Consolas,monospace}\n\
text{paint-order:stroke;stroke-width:3px;stroke-linejoin:round}\n\
line{fill:none;stroke-width:1}\n\
.rule{stroke-dasharray:1 4}\n\
.label{stroke-width:1.7;marker-end:url(#l)}\n\
.move{stroke-width:3}\n\
.close{stroke-dasharray:8 3}\n\
.pulse{stroke-width:1}\n\
.payload{stroke-width:1.7;marker-end:url(#p)}\n\
.beat{stroke-width:1.6;stroke-dasharray:2 4;marker-end:url(#b)}\n\
.sink{stroke-width:2;stroke-dasharray:2 3;transform:translate(-5px,0)}\n\
.store{stroke-width:2;stroke-dasharray:2 3;transform:translate(5px,0)}\n\
.dead{stroke-width:3}\n\
.small{stroke-width:1;opacity:.7;marker-end:none}\n\
circle.refused{stroke-width:1.4}\n\
.name{font-weight:bold;text-anchor:middle}\n\
.title{font:bold 15px system-ui,sans-serif}\n\
.how{font:12px system-ui,sans-serif}\n\
.lost{marker-end:url(#x)}\n\
.seat{stroke-width:6;stroke-linecap:round;opacity:.65}\n\
.away{stroke-dasharray:1 9}\n\
.switch{stroke-width:14;opacity:.45}\n\
.view{stroke-width:14;opacity:.22}\n\
.ground{fill:#fff}\n\
text{fill:#1b1b1f;stroke:#fff}\n\
.lane{stroke:#d0d0d8}\n\
.rule{stroke:#8a8a96}\n\
.edge{stroke:#7c7c88}\n\
circle.node{fill:#7c7c88}\n\
.label,.sink{stroke:#b85c00}\n\
.payload,.store{stroke:#1f6fc0}\n\
.beat{stroke:#5c5c66}\n\
.dead{stroke:#c22}\n\
circle.done{fill:#1b1b1f}\n\
circle.refused{fill:#fff;stroke:#65656f}\n\
.denied,.epoch,.how{fill:#65656f}\n\
.hl{fill:#b85c00}\n\
.hp{fill:#1f6fc0}\n\
.hb{fill:#5c5c66}\n\
.hx{fill:none;stroke:#c22;stroke-width:2}\n\
.seat{stroke:#0b7040}\n\
.client{fill:#1a7f4b}\n\
.switch{stroke:#c98a2b}\n\
.view{stroke:#5a6b8c}\n\
@media (prefers-color-scheme:dark){\n\
.ground{fill:#16171b}\n\
text{fill:#ececf1;stroke:#16171b}\n\
.lane{stroke:#40414c}\n\
.rule{stroke:#7d7d8a}\n\
.edge{stroke:#8c8c99}\n\
circle.node{fill:#8c8c99}\n\
.label,.sink{stroke:#f0a24a}\n\
.payload,.store{stroke:#62a8f0}\n\
.beat{stroke:#b9b9c6}\n\
.dead{stroke:#ff6b6b}\n\
circle.done{fill:#ececf1}\n\
circle.refused{fill:#16171b;stroke:#a6a6b2}\n\
.denied,.epoch,.how{fill:#a6a6b2}\n\
.hl{fill:#f0a24a}\n\
.hp{fill:#62a8f0}\n\
.hb{fill:#b9b9c6}\n\
.hx{fill:none;stroke:#ff6b6b;stroke-width:2}\n\
.seat{stroke:#58c98d}\n\
.client{fill:#58c98d}\n\
.switch{stroke:#b5893f}\n\
.view{stroke:#8fa3c8}\n\
}\n\
</style>\n\
<defs>\n\
<marker id='l' viewBox='0 0 8 8' refX='12' refY='4' markerWidth='8' markerHeight='8'\n\
markerUnits='userSpaceOnUse' orient='auto'><path class='hl' d='M0 0L8 4L0 8z'/></marker>\n\
<marker id='p' viewBox='0 0 8 8' refX='12' refY='4' markerWidth='8' markerHeight='8'\n\
markerUnits='userSpaceOnUse' orient='auto'><path class='hp' d='M0 0L8 4L0 8z'/></marker>\n\
<marker id='b' viewBox='0 0 8 8' refX='12' refY='4' markerWidth='8' markerHeight='8'\n\
markerUnits='userSpaceOnUse' orient='auto'><path class='hb' d='M0 0L8 4L0 8z'/></marker>\n\
<marker id='x' viewBox='0 0 10 10' refX='5' refY='5' markerWidth='11' markerHeight='11'\n\
markerUnits='userSpaceOnUse'><path class='hx' d='M1 1L9 9M9 1L1 9'/></marker>\n\
</defs>\n\
<rect class='ground' width='100%' height='100%'/>\n\
<text class='how' x='8' y='42'>Payloads go directly, labels through the tree.</text>\n\
<text class='how' x='8' y='58'>An update is shown where both have come, or by timestamps where no tree serves.</text>\n\
<line class='label' x1='8' y1='74' x2='42' y2='74'/>\n\
<text class='epoch' x='50' y='78'>update</text>\n\
<line class='label move' x1='108' y1='74' x2='142' y2='74'/>\n\
<text class='epoch' x='150' y='78'>move</text>\n\
<line class='label close' x1='194' y1='74' x2='228' y2='74'/>\n\
<text class='epoch' x='236' y='78'>close</text>\n\
<line class='label lost' x1='287' y1='74' x2='321' y2='74'/>\n\
<text class='epoch' x='333' y='78'>never taken</text>\n\
<line class='sink' x1='420' y1='74' x2='454' y2='74'/>\n\
<text class='epoch' x='462' y='78'>in its sink</text>\n\
<line class='payload' x1='8' y1='90' x2='42' y2='90'/>\n\
<text class='epoch' x='50' y='94'>payload</text>\n\
<line class='store' x1='114' y1='90' x2='148' y2='90'/>\n\
<text class='epoch' x='160' y='94'>waits</text>\n\
<line class='beat' x1='207' y1='90' x2='241' y2='90'/>\n\
<text class='epoch' x='249' y='94'>beat</text>\n\
<circle cx='298' cy='90' r='4' class='done'/>\n\
<text class='epoch' x='309' y='94'>done</text>\n\
<circle cx='358' cy='90' r='4' class='refused'/>\n\
<text class='epoch' x='369' y='94'>changed nothing</text>\n\
<line class='dead' x1='486' y1='84' x2='498' y2='96'/>\n\
<line class='dead' x1='486' y1='96' x2='498' y2='84'/>\n\
<text class='epoch' x='506' y='94'>killed</text>\n\
<line class='payload small' x1='566' y1='87' x2='600' y2='89'/>\n\
<line class='label small' x1='566' y1='91' x2='600' y2='93'/>\n\
<text class='epoch' x='608' y='94'>moved by a settle</text>\n\
<line class='seat' x1='8' y1='106' x2='42' y2='106'/>\n\
<text class='epoch' x='50' y='110'>client</text>\n\
<line class='seat away' x1='108' y1='106' x2='142' y2='106'/>\n\
<text class='epoch' x='150' y='110'>client on its way</text>\n\
<line class='switch' x1='280' y1='106' x2='314' y2='106'/>\n\
<text class='epoch' x='322' y='110'>site between close and advance</text>\n\
<line class='view' x1='540' y1='106' x2='574' y2='106'/>\n\
<text class='epoch' x='582' y='110'>site in a later view</text>\n\
";

/// What it is, the style, and the legend.
#[tactic(auto, unfolding(crate::specs::Legend::legend))]
pub(crate) fn legend() -> &'static str
    ensures { result.now ≡ legend }
{
    LEGEND
}
