//! The style of a picture and its shapes, and the legend below it.

/// The style, and the shapes of marks and arrow heads.
pub(crate) const STYLE: &str = "\
<style>\n\
text{font:12px monospace;fill:#222;white-space:pre}\n\
path{fill:none}\n\
.paper{fill:#fff}\n\
.setup{fill:#f1f1f1}\n\
.band{fill:#eaeef4}\n\
.head{font-weight:bold;text-anchor:end}\n\
.name,.count{font-size:9px}\n\
.head,.name{stroke:#eaeef4;stroke-width:3px;paint-order:stroke}\n\
.count{text-anchor:middle;stroke:#fff;stroke-width:2px;stroke-opacity:.6;paint-order:stroke}\n\
.sum{font-size:10px}\n\
.line{stroke:#bbb}\n\
.tick{stroke:#e2e2e2}\n\
.idle rect{fill:#f6e7b4;fill-opacity:.8}\n\
.waits rect{fill:#e0a800;fill-opacity:.6}\n\
#own{fill:#1b3f8b}\n\
#work{fill:#333}\n\
#follow{fill:#fff;stroke:#333;stroke-width:2}\n\
#stale{fill:#ffc233;stroke:#7a4a00;stroke-width:2}\n\
#lost,#denied{fill:#fff;stroke:#b00020;stroke-width:2}\n\
.own .act{font-weight:bold}\n\
.lost .act,.denied .act,.wrong{fill:#b00020}\n\
.stale .act{fill:#7a4a00}\n\
.act .body{fill:#777;font-weight:normal}\n\
.try{stroke:#1f5fbf;stroke-width:2;marker-end:url(#try)}\n\
.verdict{stroke:#666;stroke-width:2;stroke-dasharray:6 4;marker-end:url(#verdict)}\n\
.transfer{stroke:#b07d00;stroke-width:4;marker-end:url(#transfer)}\n\
.ask{stroke:#7a3fb0;stroke-width:2;stroke-dasharray:12 3 2 3;marker-end:url(#ask)}\n\
.report{stroke:#7a3fb0;stroke-width:2;stroke-dasharray:2 3;marker-end:url(#report)}\n\
#try path{fill:#1f5fbf}\n\
#verdict path{fill:#666}\n\
#transfer path{fill:#b07d00}\n\
#ask path,#report path{fill:#7a3fb0}\n\
marker{overflow:visible}\n\
</style>\n\
<defs>\n\
<marker id='try' markerUnits='userSpaceOnUse' refX='9' orient='auto'><path d='M0 -5L10 0L0 5Z'/></marker>\n\
<marker id='verdict' markerUnits='userSpaceOnUse' refX='9' orient='auto'><path d='M0 -5L10 0L0 5Z'/></marker>\n\
<marker id='transfer' markerUnits='userSpaceOnUse' refX='9' orient='auto'><path d='M0 -6L11 0L0 6Z'/></marker>\n\
<marker id='ask' markerUnits='userSpaceOnUse' refX='9' orient='auto'><path d='M0 -5L10 0L0 5Z'/></marker>\n\
<marker id='report' markerUnits='userSpaceOnUse' refX='9' orient='auto'><path d='M0 -5L10 0L0 5Z'/></marker>\n\
<rect id='own' x='-5' y='-5' width='10' height='10'/>\n\
<g id='denied'><rect x='-5' y='-5' width='10' height='10'/><path d='M-5 5L5 -5'/></g>\n\
<circle id='work' r='5'/>\n\
<circle id='follow' r='4'/>\n\
<path id='stale' d='M0 -7L7 5H-7Z'/>\n\
<path id='lost' d='M-5 -5L5 5M-5 5L5 -5'/>\n\
</defs>\n\
";

/// The legend.
pub(crate) const LEGEND: &str = "\
<use href='#own' x='16' y='16'/><text x='32' y='20'>a command of the caller is carried out</text>\n\
<use href='#denied' x='16' y='34'/><text x='32' y='38'>a command of the caller is refused</text>\n\
<use href='#work' x='16' y='52'/><text x='32' y='56'>a packet is worked off</text>\n\
<use href='#follow' x='16' y='70'/><text x='32' y='74'>what follows from the entry before it there</text>\n\
<use href='#stale' x='16' y='88'/><text x='32' y='92'>stale: the port has left, try again</text>\n\
<use href='#lost' x='16' y='106'/><text x='32' y='110'>a message is refused for good</text>\n\
<g class='waits'><rect x='10' y='118' width='12' height='14'/><text class='count' x='16' y='128'>2</text></g><text x='32' y='128'>a port is here, and so many messages wait in it</text>\n\
<path class='try' d='M400 16H440'/><text x='452' y='20'>Try: a message goes to its port</text>\n\
<path class='verdict' d='M400 34H440'/><text x='452' y='38'>Verdict: what was decided on it</text>\n\
<path class='transfer' d='M400 52H440'/><text x='452' y='56'>Transfer: a port moves with its messages</text>\n\
<path class='ask' d='M400 70H440'/><text x='452' y='74'>Ask: a post goes to its group</text>\n\
<path class='report' d='M400 88H440'/><text x='452' y='92'>Report: what became of it</text>\n\
<path class='tick' d='M400 106H440'/><text x='452' y='110'>from this line on another clock</text>\n\
<rect class='setup' x='400' y='118' width='40' height='14'/><text x='452' y='128'>the setup</text>\n\
";
