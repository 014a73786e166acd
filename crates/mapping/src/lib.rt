// The calls that change the entries of a mapping or a link, and the switch to a table.
#![tactic(auto)]

pub mod form; // form.rt: sections, pages and large pages
pub mod link; // link.rt: link an L2 table
pub mod map; // map.rt: map a section, a page or a large page
pub mod request; // request.rt: what a map asks for
mod slot; // slot.rt: the words of a table in which a mapping stands
pub mod switch; // switch.rt: switch to an L1 table
mod target; // target.rt: what map tests of its target
pub mod unmap; // unmap.rt: unmap a section, a page, a large page or a link
