//! The steps of a circuit as nodes of a question.

ghost use Rattle.std.specs.Prelude.{Bool, map, ◌^◌, ◌≡◌, ◌+◌, ◌-◌, ◌*◌, ◌<◌, ◌≤◌, ◌&&◌, ℕ, true, false, None, Some, IfOk, IfSome, IsErrOf, OnOk, List, [], All, length, min, slice_index_or, slice_set};
ghost use Rattle.std.specs.List.{list_all, list_any};
ghost use Rattle.aig_circuit.specs.Circuit.{AreNodes, IsCircuit, IsInRange, IsLeaf};
ghost use Rattle.aig_circuit.specs.Edge.{edge_to};
ghost use Rattle.aig_circuit.specs.Edges.{HasConstantInit};
ghost use Rattle.aig_circuit.specs.Reach.{IsFanin};
ghost use Rattle.aig_circuit.specs.Tree.{edge_value};
ghost use Rattle.aig_bounded.specs.declared.frames.Frames.{Frames};
ghost use Rattle.aig_bounded.specs.Question.{IsPlace, question_size, step_size};
ghost use Rattle.aig_bounded.specs.Depths.{AreDepths};
ghost use Rattle.aig_bounded.specs.Exact.{ReadsExactly, false_net, frame_to, node_image, reached_in, states_at, steps_to, with_checks};
ghost use Rattle.aig_bounded.specs.Shared.{made_in, shared_ands, shared_ors};
ghost use Rattle.aig_circuit.specs.Node.{kind_at};
ghost use Rattle.aig_bounded.specs.Frames.{AddsUpTo, AreFrames, AreShared, Extends, MakesEdge, Shows, net_of};
ghost use Rattle.aig_unroll.specs.Frame.{image_in};
ghost use Rattle.aig_bounded.specs.Steps.{HasImages, HasStates, IsFrame, MakesFrame, MakesImage, SetsStates, ShowsNode, Sum, checks_of, is_read, reached_to};

use crate::depths::depths;
use crate::error::BoundedError;
use crate::frames::Frames;
use crate::place::Place;
use crate::seeded::Seeded;
use aig_base::MemoryError;
use aig_circuit::{AigEdge, AigLatch, AigNodeType, CircuitView};
use std::alloc::Global;

/// What is known of the steps so far.
#[derive(Clone, Copy, PartialEq, Eq)]
pub(crate) struct Sums {
    /// Every constraint holds at each of them.
    pub(crate) within: AigEdge,
    /// A bad state is reached at one of them, within the constraints.
    pub(crate) reached: AigEdge,
}

impl Sums {
    /// What is known of no steps.
    fn start() -> Sums
        ensures { result ≡ record { within = edge_to 0 true; reached = edge_to 0 false } }
    {
        Sums {
            within: AigEdge::constant(true),
            reached: AigEdge::constant(false),
        }
    }
}

/// The image of an edge, where `images` has that of its node.
fn image_of(images: &[AigEdge], edge: AigEdge) -> AigEdge
    requires { edge.node_id < length images.now }
    ensures { result ≡ image_in images.now edge }
{
    images[edge.node_id()].not_if(edge.compl())
}

impl Frames {
    /// The image of node `id` at a step, from those of smaller nodes: a gate is the and of its operands' images, a latch's
    /// leaf has the latch's state, and any other leaf is opened.
    fn image(
        &mut self,
        circuit: &CircuitView<'_>,
        step: usize,
        id: usize,
        images: &[AigEdge],
        states: &[Option<AigEdge>],
    ) -> Result<AigEdge, BoundedError>
        requires frames { AreFrames circuit.now step id self.old }
        requires there { id < length circuit.now.nodes }
        requires table { length images.now ≡ length circuit.now.nodes }
        requires operands { (m : ℕ) → IsFanin circuit.now.nodes id m
            → ShowsNode circuit.now step self.old images.now m }
        requires states { length states.now ≡ length circuit.now.nodes }
        requires known { IfSome (slice_index_or states.now id None) (λ e.
            Shows circuit.now step self.old e (λ run. run step id)) }
        requires free { IsLeaf circuit.now.nodes id → slice_index_or states.now id None ≡ None
            → IsPlace circuit.now (record { step = step; leaf = id }) }
        ensures makes { IfOk result (MakesImage circuit.now step id self.old self.new) }
        ensures exact { IfOk result (λ e. made_in (net_of self.new) e
            ≡ node_image (slice_index_or states.now id None) images.now
            (record { step = step; leaf = id }) (kind_at circuit.now.nodes id) (net_of self.old)) }
        ensures size { AddsUpTo (min id 1) self.old self.new result }
    {
        match *circuit.nodes()[id].typ() {
            AigNodeType::False => Ok(AigEdge::constant(false)),
            AigNodeType::Leaf => match states[id] {
                Some(state) => Ok(state),
                None => self.open(Place { step, leaf: id }),
            },
            AigNodeType::And(fanin0, fanin1) => {
                let first = image_of(images, fanin0);
                let second = image_of(images, fanin1);
                self.and(first, second)
            }
        }
    }

    /// Makes the images of the nodes at a step that something reads in the steps that are left.
    fn add_nodes(
        &mut self,
        circuit: &CircuitView<'_>,
        depths: &[usize],
        left: usize,
        step: usize,
        images: &mut [AigEdge],
        states: &[Option<AigEdge>],
    ) -> Result<(), BoundedError>
        requires frames { AreFrames circuit.now step 0 self.old }
        requires table { length images.old ≡ length circuit.now.nodes }
        requires depths { AreDepths circuit.now (left + step) depths.now }
        requires states { HasStates circuit.now step depths.now left self.old states.now }
        ensures shows { OnOk result (HasImages circuit.now step depths.now left
            (length circuit.now.nodes) self.new images.new) }
        ensures exact { OnOk result (let read = is_read depths.now left in IsFrame read
            (frame_to circuit.now step read (λ n. slice_index_or states.now n None)
            (net_of self.old) (length circuit.now.nodes)) self.new images.new) }
        ensures frames { OnOk result (AreFrames circuit.now (step + 1) 0 self.new) }
        ensures extends { OnOk result (Extends self.old self.new) }
        ensures size { AddsUpTo (length circuit.now.nodes - 1) self.old self.new result }
    {
        for id in 0..circuit.nodes().len() {
            if depths[id] <= left {
                let image = self.image(circuit, step, id, images, states)?;
                images[id] = image;
            }
        }
        Ok(())
    }

    /// The and of an edge and the images of others.
    fn and_all(
        &mut self,
        first: AigEdge,
        edges: &[AigEdge],
        images: &[AigEdge],
    ) -> Result<AigEdge, BoundedError>
        requires shared { AreShared self.old }
        requires first { IsInRange self.old.nodes.items first }
        requires edges { All (λ e. e.node_id < length images.now) edges.now }
        requires images { All (λ e.
            IsInRange self.old.nodes.items (image_in images.now e)) edges.now }
        ensures gives { IfOk result (MakesEdge (λ y. edge_value self.old.nodes.items y first
            && list_all (λ e. edge_value self.old.nodes.items y (image_in images.now e)) edges.now)
            self.old self.new) }
        ensures exact { IfOk result (λ e. made_in (net_of self.new) e
            ≡ shared_ands (made_in (net_of self.old) first)
            (map (image_in images.now) edges.now)) }
        ensures size { AddsUpTo (length edges.now) self.old self.new result }
    {
        let mut all = first;
        for edge in edges {
            all = self.and(all, image_of(images, *edge))?;
        }
        Ok(all)
    }

    /// The or of the images of edges.
    fn or_all(&mut self, edges: &[AigEdge], images: &[AigEdge]) -> Result<AigEdge, BoundedError>
        requires shared { AreShared self.old }
        requires edges { All (λ e. e.node_id < length images.now) edges.now }
        requires images { All (λ e.
            IsInRange self.old.nodes.items (image_in images.now e)) edges.now }
        ensures gives { IfOk result (MakesEdge (λ y. list_any
            (λ e. edge_value self.old.nodes.items y (image_in images.now e)) edges.now)
            self.old self.new) }
        ensures exact { IfOk result (λ e. made_in (net_of self.new) e
            ≡ shared_ors (made_in (net_of self.old) (edge_to 0 false))
            (map (image_in images.now) edges.now)) }
        ensures size { AddsUpTo (length edges.now) self.old self.new result }
    {
        let mut any = AigEdge::constant(false);
        for edge in edges {
            any = self.or(any, image_of(images, *edge))?;
        }
        Ok(any)
    }

    /// What is known of the steps with one more, of which these are the images.
    fn add_sums(
        &mut self,
        circuit: &CircuitView<'_>,
        images: &[AigEdge],
        step: usize,
        sums: Sums,
    ) -> Result<Sums, BoundedError>
        requires frames { AreFrames circuit.now (step + 1) 0 self.old }
        requires table { length images.now ≡ length circuit.now.nodes }
        requires bads { All (λ e. ShowsNode circuit.now step self.old images.now e.node_id)
            circuit.now.properties.bads }
        requires constraints { All (λ e. ShowsNode circuit.now step self.old images.now e.node_id)
            circuit.now.properties.constraints }
        requires sums { Sum circuit.now step step self.old sums }
        ensures sums { IfOk result (Sum circuit.now step (step + 1) self.new) }
        ensures exact { IfOk result (λ after. checks_of self.new after
            ≡ with_checks circuit.now images.now (checks_of self.old sums)) }
        ensures frames { OnOk result (AreFrames circuit.now (step + 1) 0 self.new) }
        ensures extends { OnOk result (Extends self.old self.new) }
        ensures size { AddsUpTo (length circuit.now.properties.bads
            + length circuit.now.properties.constraints + 2) self.old self.new result }
    {
        let within = self.and_all(sums.within, circuit.constraints(), images)?;
        let bad = self.or_all(circuit.bads(), images)?;
        let now = self.and(within, bad)?;
        let reached = self.or(sums.reached, now)?;
        Ok(Sums { within, reached })
    }

    /// Adds a step, of which something is read in the steps that are left, and returns what is known of all so far.
    fn add_step(
        &mut self,
        circuit: &CircuitView<'_>,
        depths: &[usize],
        left: usize,
        step: usize,
        images: &mut [AigEdge],
        states: &[Option<AigEdge>],
        sums: Sums,
    ) -> Result<Sums, BoundedError>
        requires circuit { IsCircuit circuit.now }
        requires frames { AreFrames circuit.now step 0 self.old }
        requires table { length images.old ≡ length circuit.now.nodes }
        requires depths { AreDepths circuit.now (left + step) depths.now }
        requires states { HasStates circuit.now step depths.now left self.old states.now }
        requires sums { Sum circuit.now step step self.old sums }
        ensures sums { IfOk result (Sum circuit.now step (step + 1) self.new) }
        ensures shows { OnOk result (HasImages circuit.now step depths.now left
            (length circuit.now.nodes) self.new images.new) }
        ensures exact { IfOk result (λ after. let read = is_read depths.now left in MakesFrame read
            (frame_to circuit.now step read (λ n. slice_index_or states.now n None)
            (net_of self.old) (length circuit.now.nodes)) circuit.now sums images.new
            (checks_of self.new after)) }
        ensures frames { OnOk result (AreFrames circuit.now (step + 1) 0 self.new) }
        ensures extends { OnOk result (Extends self.old self.new) }
        ensures size { AddsUpTo (step_size circuit.now) self.old self.new result }
    {
        self.add_nodes(circuit, depths, left, step, images, states)?;
        let after = self.add_sums(circuit, images, step, sums)?;
        Ok(after)
    }

    /// Adds the steps 0 to `last`, and returns the edge that is true where a bad state is reached. A step that changes nothing is
    /// the last that is made: each step after it would be that step again.
    fn add_steps(
        &mut self,
        circuit: &CircuitView<'_>,
        depths: &[usize],
        last: usize,
        images: &mut [AigEdge],
        states: &mut [Option<AigEdge>],
    ) -> Result<AigEdge, BoundedError>
        requires circuit { IsCircuit circuit.now }
        requires frames { AreFrames circuit.now 0 0 self.old }
        requires table { length images.old ≡ length circuit.now.nodes }
        requires depths { AreDepths circuit.now last depths.now }
        requires states { HasStates circuit.now 0 depths.now last self.old states.old }
        requires net { net_of self.old ≡ false_net }
        requires constants { (n : ℕ) → slice_index_or states.old n None
            ≡ states_at circuit.now [] 0 n }
        ensures shows { IfOk result (λ e.
            Shows circuit.now last self.new e
            (λ run. reached_to circuit.now run (last + 1))) }
        ensures exact { IfOk result (λ e. made_in (net_of self.new) e
            ≡ reached_in (steps_to (is_read depths.now) circuit.now last (last + 1))) }
        ensures frames { OnOk result (AreFrames circuit.now (last + 1) 0 self.new) }
        ensures limit { OnOk result (self.new.limit ≡ self.old.limit) }
        ensures size { AddsUpTo ((last + 1) * step_size circuit.now) self.old self.new result }
    {
        let mut sums = Sums::start();
        for step in 0..last {
            let count = self.nodes.len();
            let after = self.add_step(circuit, depths, last - step, step, images, states, sums)?;
            let changed = advance(circuit, images, states);
            if !changed && after == sums && self.nodes.len() == count {
                return Ok(sums.reached);
            }
            sums = after;
        }
        let all = self.add_step(circuit, depths, 0, last, images, states, sums)?;
        Ok(all.reached)
    }
}

/// Gives each latch the image of its next edge as its state. Returns whether some latch had another.
fn advance(circuit: &CircuitView<'_>, images: &[AigEdge], states: &mut [Option<AigEdge>]) -> bool
    requires table { length images.now ≡ length circuit.now.nodes }
    requires states { length states.old ≡ length circuit.now.nodes }
    ensures sets { SetsStates circuit.now.latchs (length circuit.now.latchs)
        (λ latch. Some (image_in images.now latch.next))
        states.old states.new }
    ensures same { result ≡ false → states.new ≡ states.old }
{
    let mut changed = false;
    for latch in circuit.latchs() {
        changed |= set_state(states, latch.input(), image_of(images, latch.next()));
    }
    changed
}

/// Sets the state of a latch's leaf. Returns whether it was another.
fn set_state(states: &mut [Option<AigEdge>], leaf: usize, state: AigEdge) -> bool
    requires { leaf < length states.old }
    ensures sets { states.new ≡ slice_set states.old leaf (Some state) }
    ensures same { result ≡ false → states.new ≡ states.old }
{
    let before = states[leaf];
    states[leaf] = Some(state);
    before != Some(state)
}

/// The states of latches at the start: the constants that they have there. The others are open.
fn start_states(
    alloc: Global,
    circuit: &CircuitView<'_>,
) -> Result<Vec<Option<AigEdge>>, MemoryError>
    requires { All HasConstantInit circuit.now.latchs }
    ensures has { IfOk result (λ states. (depths : List ℕ) (left : ℕ) (f : Frames)
        → AreNodes f.nodes.items → HasStates circuit.now 0 depths left f states.items) }
    ensures exact { IfOk result (λ states. (n : ℕ) → slice_index_or states.items n None
        ≡ states_at circuit.now [] 0 n) }
{
    let mut states = vec![in alloc; None; circuit.nodes().len()]?;
    for latch in circuit.latchs() {
        states[latch.input()] = latch.init();
    }
    Ok(states)
}

/// Room for so many images, none of which is made yet.
fn blank_images(alloc: Global, count: usize) -> Result<Vec<AigEdge>, MemoryError>
    ensures { IfOk result (λ images. length images.items ≡ count) }
{
    Ok(vec![in alloc; AigEdge::constant(false); count]?)
}

/// The nodes of the steps 0 to `last`, and the edge that is true where a bad state is reached.
pub(crate) fn expanded(
    alloc: Global,
    circuit: &CircuitView<'_>,
    last: usize,
    limit: usize,
) -> Result<(Frames, AigEdge), BoundedError>
    requires starts { All HasConstantInit circuit.now.latchs }
    requires some { 1 ≤ limit }
    requires few { limit ≤ 2 ^ 31 }
    ensures shows { IfOk result (λ made. Shows circuit.now last made.0 made.1
        (λ run. reached_to circuit.now run (last + 1))) }
    ensures exact { IfOk result (λ made. (read : ℕ → ℕ → Bool) × ReadsExactly circuit.now last read
        × (made_in (net_of made.0) made.1
        ≡ reached_in (steps_to read circuit.now last (last + 1)))) }
    ensures frames { IfOk result (λ made. AreFrames circuit.now (last + 1) 0 made.0) }
    ensures limit { IfOk result (λ made. made.0.limit ≡ limit) }
    ensures large { IsErrOf result BoundedError.TooLarge → limit < question_size circuit.now last }
    ensures circuit { IsCircuit circuit.now }
{
    let count = circuit.nodes().len();
    if last == usize::MAX {
        return Err(BoundedError::TooLarge);
    }
    let depths = depths(alloc, circuit, last)?;
    let mut images = blank_images(alloc, count)?;
    let mut states = start_states(alloc, circuit)?;
    let mut frames = Frames::new(alloc, limit, Seeded::of(circuit))?;
    let output = frames.add_steps(circuit, &depths, last, &mut images, &mut states)?;
    Ok((frames, output))
}
