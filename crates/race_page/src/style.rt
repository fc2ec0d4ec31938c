//! The look of the page. It has a light and a dark form, a form for narrow windows, and one for paper. Its policy
//! forbids the page to fetch or run anything.

/// What comes before the title.
pub(crate) const TOP: &[u8] = b"<!DOCTYPE html>
<html lang=\"en\">
<head>
<meta charset=\"utf-8\">
<meta http-equiv=\"Content-Security-Policy\" content=\"default-src 'none'; style-src 'unsafe-inline'; base-uri 'none'; form-action 'none'\">
<meta name=\"viewport\" content=\"width=device-width, initial-scale=1\">
<meta name=\"color-scheme\" content=\"light dark\">
<meta name=\"referrer\" content=\"no-referrer\">
";

/// What comes between the title and the first heading. The second half of the style is for pictures: colours from the
/// palette of Okabe and Ito, and lighter ones on a dark page. A picture in a separate file has the same.
pub(crate) const BODY: &[u8] = b"<style>
:root{--paper:#ffffff;--ink:#1b1b1b;--soft:#4c5a66;--edge:#8fa3b3;--tint:#f2f5f8;--mark:#b04a00}
body{margin:0 auto;padding:1rem;max-width:80rem;background:var(--paper);color:var(--ink);font:1rem/1.5 sans-serif}
h1{font-size:1.5rem}
h2{font-size:1.25rem;margin:2rem 0 .5rem}
h3{display:inline;font-size:1rem}
h4{font-size:1rem;margin:1rem 0 .25rem}
h1,h3,p,td,summary,figcaption{overflow-wrap:anywhere}
table{border-collapse:collapse;margin:.5rem 0}
th,td{border:1px solid var(--edge);padding:.25rem .5rem;text-align:left;vertical-align:top}
th{background:var(--tint)}
.number{text-align:right;font-variant-numeric:tabular-nums}
code,pre{font-family:monospace}
pre{max-height:40rem;overflow-y:auto}
pre,.wide{overflow-x:auto;margin:.25rem 0;padding:.5rem;border:1px solid var(--edge);background:var(--tint)}
figure{margin:.5rem 0}
svg{display:block}
details{margin:.5rem 0;padding:.5rem;border:1px solid var(--edge)}
summary{cursor:pointer}
.facts{display:block;color:var(--soft)}
.seen{float:right;width:11rem;margin-left:1rem;border:1px solid var(--edge);text-align:center;font-size:.875rem;color:var(--soft)}
.matters{border-color:var(--mark);color:var(--mark);font-weight:bold}
:focus-visible{outline:3px solid var(--mark);outline-offset:1px}
@media (max-width:40rem){
body,details,th,td{padding:.25rem}
.seen{float:none;display:inline-block;margin:0 0 .25rem}
.wide{padding:0}
}
@media (prefers-color-scheme:dark){
:root{--paper:#14181c;--ink:#e6e6e6;--soft:#a9b7c4;--edge:#5a7184;--tint:#1e252c;--mark:#ffb27d}
}
@media print{
:root{--paper:#ffffff;--ink:#000000;--soft:#333333;--edge:#777777;--tint:#ffffff}
body{max-width:none;padding:0}
details::details-content{display:block;content-visibility:visible}
pre{max-height:none;white-space:pre-wrap;overflow-wrap:anywhere}
.wide{overflow:visible}
svg{max-width:100%;height:auto}
}
text{font:10px monospace;fill:#1b1b1b}
.paper{fill:#ffffff}
.name{font-weight:bold}
.note{fill:#4c5a66}
.box{fill:#eef3f8;stroke:#5a7184}
.edge{fill:#c9d4de}
.held{fill:#0072b2}
.arrow{fill:none;stroke:#5a7184;stroke-width:1.5}
.tip{fill:#5a7184}
.race{fill:#fdf0e6;stroke:#d55e00;stroke-width:2}
.access{fill:#b04a00;font-weight:bold}
@media screen and (prefers-color-scheme:dark){
text{fill:#e6e6e6}
.paper{fill:#14181c}
.note{fill:#a9b7c4}
.box{fill:#232b33;stroke:#8fa3b3}
.edge{fill:#3b4752}
.held{fill:#56b4e9}
.arrow{stroke:#8fa3b3}
.tip{fill:#8fa3b3}
.race{fill:#33241a;stroke:#ff9e5e}
.access{fill:#ffb27d}
}
</style>
</head>
<body>
<svg width=\"0\" height=\"0\" aria-hidden=\"true\"><defs><marker id=\"tip\" viewBox=\"0 0 8 8\" refX=\"8\" refY=\"4\" markerWidth=\"8\" markerHeight=\"8\" markerUnits=\"userSpaceOnUse\" orient=\"auto\"><path class=\"tip\" d=\"M0 0L8 4L0 8Z\"/></marker></defs></svg>
";

/// What comes at the end of the page.
pub(crate) const FOOT: &[u8] = b"</main>
</body>
</html>
";
