//! What is wrong with metadata, and the blobs that it has.
ghost use Rattle.std.specs.Prelude.{◌≡◌, ◌++◌, IfOk, OnOk, length};
ghost use Rattle.spec_record.specs.Geometry.{IsGeometry, node_map_in};
ghost use Rattle.spec_image.specs.WellFormed.{records_of};
ghost use Rattle.spec_meta.specs.Blocks.{metadata_at};
ghost use Rattle.spec_meta.specs.Survey.{survey_of};
ghost use Rattle.bv_txn.specs.Metas.{IsLawful, metadata_of};

use crate::depths::depths_of;
use crate::placed::{add_orphans, placed_nodes};
use crate::plan::counts_of;
use crate::reading::read_chains;
use crate::roots::add_twice;
use crate::tallies::{add_bits, add_counts, add_overlaps};
use crate::{Meta, SurveyFault};
use bv_bytes::Block;
use bv_node::{BlobRec, NodeMap};
use spec_record::Geometry;
use std::alloc::{AllocError, Global};

/// What a survey of metadata finds.
#[derive(Drop)]
pub struct Survey {
    /// The blobs whose chains read, in the order of their inodes.
    pub blobs: Vec<BlobRec>,
    /// All that is wrong, in the order of a survey.
    pub faults: Vec<SurveyFault>,
}

/// The node map in these metadata blocks.
fn node_map<'a>(geometry: &Geometry, base: &'a [Block]) -> NodeMap<'a>
    requires { IsLawful geometry.now base.now }
    ensures { result ≡ node_map_in geometry.now base.now }
{
    let from = (1 + geometry.bitmap()) as usize;
    NodeMap::new(&base[from..])
}

/// The survey of these metadata blocks.
fn surveyed(alloc: Global, geometry: &Geometry, base: &[Block]) -> Result<Survey, AllocError>
    requires { IsLawful geometry.now base.now }
    ensures blobs { IfOk result (λ s.
        s.blobs.items ≡ records_of (metadata_at geometry.now base.now)) }
    ensures faults { IfOk result (λ s.
        s.faults.items ≡ survey_of (metadata_at geometry.now base.now)) }
{
    let nodes = node_map(geometry, base);
    let Survey { blobs, mut faults } = read_chains(alloc, geometry, &nodes)?;
    let placed = placed_nodes(alloc, geometry.nodes, &blobs)?;
    add_orphans(&nodes, geometry.version, &placed, &mut faults)?;
    let depths = depths_of(alloc, geometry.blocks, &blobs)?;
    add_overlaps(&depths, &mut faults)?;
    add_twice(alloc, &blobs, &mut faults)?;
    add_bits(geometry, base, &depths, &mut faults)?;
    let said = counts_of(geometry, &base[0]);
    add_counts(&said, &blobs, &depths, &mut faults)?;
    Ok(Survey { blobs, faults })
}

impl Meta {
    /// All that is wrong with the metadata, and its blobs whose chains read.
    ///
    /// The time grows with the blocks and the nodes of the volume, also where extents overlap.
    pub fn survey(&self, alloc: Global) -> Result<Survey, AllocError>
        ensures blobs { IfOk result (λ s. s.blobs.items ≡ records_of (metadata_of self.now)) }
        ensures faults { IfOk result (λ s. s.faults.items ≡ survey_of (metadata_of self.now)) }
    {
        surveyed(alloc, &self.geometry, &self.blocks)
    }
}
