//! A picture of a run, in the language of pictures SVG: time goes downwards in bands of turns, and each member has
//! a lane.
//!
//! A turn is told before it is drawn: how high a band gets, and what a change of view delivers in it, is
//! known only once its members are through with it. So news goes into strips first, which know no sheet, and
//! a band is drawn as a list of marks once there is no more to tell of it. Only what lays marks on the sheet
//! promises that what was drawn stays; all before it is merely safe, and examples are compared byte for byte.
//! Arrows join up to six lanes: with sixteen each item has fifteen takers, and nothing else could be seen.
#![tactic(auto)]

mod band;
mod bands;
mod drawing;
mod labels;
mod lane;
mod legend;
mod marks;
mod picture;
mod shapes;
mod sheet;
mod strip;

pub use picture::{Picture, Window};
