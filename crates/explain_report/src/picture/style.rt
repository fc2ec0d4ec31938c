//! The style of pictures. The colours are those of Okabe and Ito, which people who cannot tell red from green can
//! distinguish. On a dark page, lighter ones replace them.

/// The text after the title and the description: the look of each class, and the tip of an arrow.
pub(crate) const STYLE: &[u8] = b"<style>
text{font:10px monospace;fill:#1b1b1b}
.paper{fill:#ffffff}
.name{font-weight:bold}
.note{fill:#4c5a66}
.box{fill:#eef3f8;stroke:#5a7184}
.edge{fill:#c9d4de}
.held{fill:#0072b2}
.arrow{fill:none;stroke:#5a7184;stroke-width:1.5}
.tip{fill:#5a7184}
.race{fill:#fdf0e6;stroke:#d55e00;stroke-width:2}
.access{fill:#b04a00;font-weight:bold}
@media (prefers-color-scheme:dark){
text{fill:#e6e6e6}
.paper{fill:#14181c}
.note{fill:#a9b7c4}
.box{fill:#232b33;stroke:#8fa3b3}
.edge{fill:#3b4752}
.held{fill:#56b4e9}
.arrow{stroke:#8fa3b3}
.tip{fill:#8fa3b3}
.race{fill:#33241a;stroke:#ff9e5e}
.access{fill:#ffb27d}
}
</style>
<defs><marker id=\"tip\" viewBox=\"0 0 8 8\" refX=\"8\" refY=\"4\" markerWidth=\"8\" markerHeight=\"8\" markerUnits=\"userSpaceOnUse\" orient=\"auto\"><path class=\"tip\" d=\"M0 0L8 4L0 8Z\"/></marker></defs>
";
