//! Journals, and what stands in their pictures between the shapes and the legend. The pictures are those of another program, which
//! draws by the words of the format.

/// The summary where nothing was sent and no port moved.
pub(crate) const NO_MESSAGE: &str = "\
summary\n\
posted 0\n\
accepted 0\n\
taken 0\n\
queued 0\n\
moving 0\n\
refused 0\n\
stale 0\n\
departs 0\n\
end\n\
";

/// The report of no entry.
pub(crate) const NOTHING: &str = "\
journal 0\n\
summary\n\
posted 0\n\
accepted 0\n\
taken 0\n\
queued 0\n\
moving 0\n\
refused 0\n\
stale 0\n\
departs 0\n\
end\n\
";

/// Its picture.
pub(crate) const NOTHING_DRAWN: &str = "\
<rect class='paper' width='724' height='283'/>\n\
<rect class='band' y='0' width='724' height='40'/>\n\
<text x='8' y='32'>clock</text><text x='76' y='32'>caller</text><text x='136' y='32'>entry</text>\n\
<text x='8' y='71'>0 entries, all lawful</text><text class='sum' x='8' y='89'>summary posted 0 accepted 0 taken 0 queued 0 moving 0 refused 0 stale 0 departs 0 end </text>\n\
";

/// A message comes where its port has left, and is tried again. Script 3 is stuck.
pub(crate) const STALE: &str = "\
journal 10\n\
1 1 0 make 1.p.1 1.a.1 4\n\
2 1 2 depart 1.p.1 2 2.a.1 1\n\
2 3 1 post 1:1:0 port 1.p.1 plain =x\n\
3 3 1 try 1:1:0 1.p.1 1 0\n\
4 1 0 stale 1:1:0 1.p.1 0 2 1\n\
5 3 0 told 1:1:0 stale 2 1\n\
6 3 0 try 1:1:0 1.p.1 2 1\n\
7 2 0 arrive 1.p.1 1\n\
8 2 0 accept 1:1:0 1.p.1 0\n\
9 3 0 told 1:1:0 accepted 0\n\
summary\n\
posted 1\n\
accepted 1\n\
taken 0\n\
queued 1\n\
moving 0\n\
refused 0\n\
stale 1\n\
departs 1\n\
stuck 3 1\n\
end\n\
";

/// Its picture.
pub(crate) const STALE_DRAWN: &str = "\
<rect class='paper' width='1016' height='463'/>\n\
<rect class='setup' y='40' width='1016' height='18'/>\n\
<path class='line' d='M128 40V229'/>\n\
<path class='line' d='M230 40V229'/>\n\
<path class='line' d='M332 40V229'/>\n\
<rect class='band' y='0' width='1016' height='40'/>\n\
<path class='tick' d='M8 58H1008'/>\n\
<g class='idle'><title>1.p.1, 0</title><rect x='150' y='49' width='12' height='18'/></g>\n\
<path class='tick' d='M8 94H1008'/>\n\
<path class='tick' d='M8 112H1008'/>\n\
<path class='tick' d='M8 130H1008'/>\n\
<path class='tick' d='M8 148H1008'/>\n\
<path class='tick' d='M8 166H1008'/>\n\
<path class='tick' d='M8 184H1008'/>\n\
<g class='idle'><title>1.p.1, 0</title><rect x='252' y='175' width='12' height='18'/></g>\n\
<path class='tick' d='M8 202H1008'/>\n\
<g class='waits'><title>1.p.1, 1</title><rect x='252' y='193' width='12' height='36'/></g>\n\
<path class='try' d='M326 103H172L135 121'><title>try, line 5 to line 6</title></path>\n\
<path class='verdict' d='M134 121H286L325 139'><title>verdict, line 6 to line 7</title></path>\n\
<path class='transfer' d='M134 67H184L223 175'><title>transfer, line 3 to line 9</title></path>\n\
<path class='try' d='M326 157H274L237 193'><title>try, line 8 to line 10</title></path>\n\
<path class='verdict' d='M236 193H286L325 211'><title>verdict, line 10 to line 11</title></path>\n\
<g class='own'><title>1 1 0 make 1.p.1 1.a.1 4</title><use href='#own' x='128' y='49'/><text x='8' y='53'>1</text><text x='368' y='53'>0</text><text class='act' x='428' y='53'>make 1.p.1 1.a.1 4</text></g>\n\
<text class='count' x='156' y='62'>0</text>\n\
<g class='own'><title>2 1 2 depart 1.p.1 2 2.a.1 1</title><use href='#own' x='128' y='67'/><text x='8' y='71'>2</text><text x='368' y='71'>2</text><text class='act' x='428' y='71'>depart 1.p.1 2 2.a.1 1</text></g>\n\
<g class='own'><title>2 3 1 post 1:1:0 port 1.p.1 plain =x</title><use href='#own' x='332' y='85'/><text x='8' y='89'>2</text><text x='368' y='89'>1</text><text class='act' x='428' y='89'>post 1:1:0 port 1.p.1 plain =x</text></g>\n\
<g class='follow'><title>3 3 1 try 1:1:0 1.p.1 1 0</title><use href='#follow' x='332' y='103'/><text x='8' y='107'>3</text><text x='368' y='107'>1</text><text class='act' x='428' y='107'>try 1:1:0 1.p.1 1 0</text></g>\n\
<g class='stale'><title>4 1 0 stale 1:1:0 1.p.1 0 2 1</title><use href='#stale' x='128' y='121'/><text x='8' y='125'>4</text><text x='368' y='125'>0</text><text class='act' x='428' y='125'>stale 1:1:0 1.p.1 0 2 1<tspan class='body'>  =x</tspan></text></g>\n\
<g class='work'><title>5 3 0 told 1:1:0 stale 2 1</title><use href='#work' x='332' y='139'/><text x='8' y='143'>5</text><text x='368' y='143'>0</text><text class='act' x='428' y='143'>told 1:1:0 stale 2 1</text></g>\n\
<g class='follow'><title>6 3 0 try 1:1:0 1.p.1 2 1</title><use href='#follow' x='332' y='157'/><text x='8' y='161'>6</text><text x='368' y='161'>0</text><text class='act' x='428' y='161'>try 1:1:0 1.p.1 2 1</text></g>\n\
<g class='work'><title>7 2 0 arrive 1.p.1 1</title><use href='#work' x='230' y='175'/><text x='8' y='179'>7</text><text x='368' y='179'>0</text><text class='act' x='428' y='179'>arrive 1.p.1 1</text></g>\n\
<text class='count' x='258' y='188'>0</text>\n\
<g class='work'><title>8 2 0 accept 1:1:0 1.p.1 0</title><use href='#work' x='230' y='193'/><text x='8' y='197'>8</text><text x='368' y='197'>0</text><text class='act' x='428' y='197'>accept 1:1:0 1.p.1 0<tspan class='body'>  =x</tspan></text></g>\n\
<text class='count' x='258' y='206'>1</text>\n\
<g class='work'><title>9 3 0 told 1:1:0 accepted 0</title><use href='#work' x='332' y='211'/><text x='8' y='215'>9</text><text x='368' y='215'>0</text><text class='act' x='428' y='215'>told 1:1:0 accepted 0</text></g>\n\
<text x='8' y='32'>clock</text><text x='368' y='32'>caller</text><text x='428' y='32'>entry</text>\n\
<text class='head' x='134' y='16'>site 1</text><text class='head' x='134' y='32'>place 1</text>\n\
<text class='name' transform='rotate(-90 159 38)' x='159' y='38'>1.p.1</text>\n\
<text class='head' x='236' y='16'>site 2</text><text class='head' x='236' y='32'>place 2</text>\n\
<text class='name' transform='rotate(-90 261 38)' x='261' y='38'>1.p.1</text>\n\
<text class='head' x='338' y='16'>site 3</text><text class='head' x='338' y='32'>place 3</text>\n\
<text x='8' y='251'>10 entries, all lawful</text><text class='sum' x='8' y='269'>summary posted 1 accepted 1 taken 0 queued 1 moving 0 refused 0 stale 1 departs 1 stuck 3 1 end </text>\n\
";

/// A setup of two lines, a message whose body is cut, and a sixth line that is none that may stand there.
pub(crate) const UNLAWFUL: &str = "\
journal 5\n\
1 1 0 make 1.p.1 1.a.1 4\n\
2 1 0 group 1.g.1\n\
3 1 1 post 1:1:0 port 1.p.1 plain =<b>&x, 'cut' behind \"24\" of its characters\n\
4 1 1 accept 1:1:0 1.p.1 0\n\
4 1 0 take 1.p.1 0 <1:1:0>%\n\
";

/// Its picture.
pub(crate) const UNLAWFUL_DRAWN: &str = "\
<rect class='paper' width='826' height='355'/>\n\
<rect class='setup' y='40' width='826' height='36'/>\n\
<path class='line' d='M128 40V121'/>\n\
<rect class='band' y='0' width='826' height='40'/>\n\
<path class='tick' d='M8 76H818'/>\n\
<path class='tick' d='M8 94H818'/>\n\
<g class='idle'><title>1.p.1, 0</title><rect x='150' y='49' width='12' height='54'/></g>\n\
<g class='waits'><title>1.p.1, 1</title><rect x='150' y='103' width='12' height='18'/></g>\n\
<g class='own'><title>1 1 0 make 1.p.1 1.a.1 4</title><use href='#own' x='128' y='49'/><text x='8' y='53'>1</text><text x='178' y='53'>0</text><text class='act' x='238' y='53'>make 1.p.1 1.a.1 4</text></g>\n\
<text class='count' x='156' y='62'>0</text>\n\
<g class='own'><title>2 1 0 group 1.g.1</title><use href='#own' x='128' y='67'/><text x='8' y='71'>2</text><text x='178' y='71'>0</text><text class='act' x='238' y='71'>group 1.g.1</text></g>\n\
<g class='own'><title>3 1 1 post 1:1:0 port 1.p.1 plain =&lt;b&gt;&amp;x, &#39;cut&#39; behind &quot;24&quot; of its characters</title><use href='#own' x='128' y='85'/><text x='8' y='89'>3</text><text x='178' y='89'>1</text><text class='act' x='238' y='89'>post 1:1:0 port 1.p.1 plain =&lt;b&gt;&amp;x, &#39;cut&#39; behind &quot;24&quot;...</text></g>\n\
<g class='follow'><title>4 1 1 accept 1:1:0 1.p.1 0</title><use href='#follow' x='128' y='103'/><text x='8' y='107'>4</text><text x='178' y='107'>1</text><text class='act' x='238' y='107'>accept 1:1:0 1.p.1 0<tspan class='body'>  =&lt;b&gt;&amp;x, &#39;cut&#39; behind &quot;24&quot;...</tspan></text></g>\n\
<text class='count' x='156' y='116'>1</text>\n\
<text x='8' y='32'>clock</text><text x='178' y='32'>caller</text><text x='238' y='32'>entry</text>\n\
<text class='head' x='134' y='16'>site 1</text><text class='head' x='134' y='32'>place 1</text>\n\
<text class='name' transform='rotate(-90 159 38)' x='159' y='38'>1.p.1</text>\n\
<text class='wrong' x='8' y='143'>line 6 is wrong: 4 1 0 take 1.p.1 0 &lt;1:1:0&gt;%25</text><text class='wrong' x='8' y='161'>rule 99: no line that may stand here</text>\n\
";
