//! The nodes of a volume read, and the chains of its inodes.
ghost use Rattle.std.specs.Prelude.{◌≡◌, ◌++◌, ◌*◌, ◌<◌, IfOk, OnOk, length};
ghost use Rattle.spec_record.specs.Geometry.{IsGeometry};
ghost use Rattle.spec_image.specs.Chain.{chain as chain_of};
ghost use Rattle.spec_image.specs.WellFormed.{read_of, records_below};
ghost use Rattle.spec_meta.specs.Survey.{of_each, chain_fault};
ghost use Rattle.bv_node.specs.Chains.{nodes_of};
ghost use Rattle.bv_txn.specs.Surveys.{node_faults};

use crate::{Survey, SurveyFault};
use bv_node::{ChainFault, Node, NodeFault, NodeMap, chain, read_node};
use spec_record::Geometry;
use std::alloc::{AllocError, Global};

/// Node `k`, or why it doesn't read.
pub(crate) fn node_at(nodes: &NodeMap, version: u32, k: u32) -> Result<Node, NodeFault>
    requires { k < 128 * length nodes.now }
    ensures { result ≡ (nodes_of nodes.now version).read k }
{
    read_node(nodes.get(k), version)
}

impl Survey {
    /// Adds the blob of the inode at node `k`, or the fault of its chain.
    fn add_chain(
        &mut self,
        alloc: Global,
        nodes: &NodeMap,
        blocks: u64,
        version: u32,
        k: u32,
    ) -> Result<(), AllocError>
        requires { k < 128 * length nodes.now }
        ensures blobs { OnOk result (self.new.blobs.items ≡ self.old.blobs.items
            ++ read_of (chain_of (nodes_of nodes.now version) blocks k)) }
        ensures faults { OnOk result (self.new.faults.items ≡ self.old.faults.items
            ++ chain_fault k (chain_of (nodes_of nodes.now version) blocks k)) }
    {
        match chain(alloc, nodes, blocks, version, k) {
            Ok(blob) => self.blobs.push(blob)?,
            Err(ChainFault::Node(fault)) => self.faults.push(SurveyFault::Node { node: k, fault })?,
            Err(ChainFault::NoMemory) => return Err(AllocError),
        }
        Ok(())
    }

    /// Adds what node `k` has: its fault, or at an inode its blob or the fault of its chain.
    fn add_node(
        &mut self,
        alloc: Global,
        nodes: &NodeMap,
        blocks: u64,
        version: u32,
        k: u32,
    ) -> Result<(), AllocError>
        requires { k < 128 * length nodes.now }
        ensures blobs { OnOk result (self.new.blobs.items ≡ self.old.blobs.items
            ++ read_of (chain_of (nodes_of nodes.now version) blocks k)) }
        ensures faults { OnOk result (self.new.faults.items ≡ self.old.faults.items
            ++ node_faults (nodes_of nodes.now version) blocks k) }
    {
        let node = match node_at(nodes, version, k) {
            Ok(node) => node,
            Err(fault) => {
                self.faults.push(SurveyFault::Node { node: k, fault })?;
                return Ok(());
            }
        };
        match node {
            Node::Inode(_) => self.add_chain(alloc, nodes, blocks, version, k)?,
            Node::Free => {}
            Node::Container(_) => {}
        }
        Ok(())
    }
}

/// The blobs of a volume, and the faults of its nodes and chains.
#[tactic(auto, using(crate::proofs::FaultLemmas::of_each_more, crate::proofs::FaultLemmas::records_more))]
pub(crate) fn read_chains(
    alloc: Global,
    geometry: &Geometry,
    nodes: &NodeMap,
) -> Result<Survey, AllocError>
    requires limits { IsGeometry geometry.now }
    requires nodes { 128 * length nodes.now ≡ geometry.now.nodes }
    ensures blobs { IfOk result (λ s. s.blobs.items
        ≡ records_below (nodes_of nodes.now geometry.now.version)
        geometry.now.blocks geometry.now.nodes) }
    ensures faults { IfOk result (λ s. s.faults.items ≡ of_each geometry.now.nodes
        (node_faults (nodes_of nodes.now geometry.now.version) geometry.now.blocks)) }
{
    let mut survey = Survey {
        blobs: Vec::new(alloc),
        faults: Vec::new(alloc),
    };
    for k in 0..geometry.nodes as u32 {
        survey.add_node(alloc, nodes, geometry.blocks, geometry.version, k)?;
    }
    Ok(survey)
}
