//! The rows of a description, before and after they are read.
use crate::flaw::FlawPart;
use rl_map::{MapNode, PlacePart};
use rl_model::Parts;
use std::marker::Model;
use toml::Value;

/// The arrays of a description, whose rows are tables.
#[derive(Clone, Copy)]
pub(crate) struct Arrays<'a> {
    pub(crate) blocks: &'a [Value],
    pub(crate) files: &'a [Value],
    pub(crate) regs: &'a [Value],
    pub(crate) mems: &'a [Value],
    pub(crate) maps: &'a [Value],
    pub(crate) places: &'a [Value],
    pub(crate) flaws: &'a [Value],
}

/// All rows of a description, in order.
#[derive(Drop)]
pub(crate) struct Document {
    pub(crate) parts: Parts,
    pub(crate) maps: Vec<MapNode>,
    pub(crate) places: Vec<PlacePart>,
    pub(crate) flaws: Vec<FlawPart>,
}

impl Model for Document {
    ghost use Rattle.rl_desc.specs.Data.{DocumentData};

    ghost Value = { DocumentData };

    ghost view = { λ d. record {
      parts = d.parts;
      maps = d.maps.items;
      places = d.places.items;
      flaws = d.flaws.items;
    } };
}
