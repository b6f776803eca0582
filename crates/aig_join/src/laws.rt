//! Laws of joint circuits, of miters, and of circuits beside witness circuits.

ghost use Rattle.std.specs.Prelude.{◌≡◌, ◌↔◌, ◌<◌, ◌≤◌, ◌^◌, ℕ, All, List, length};
ghost use Rattle.std.specs.FinMap.{get};
ghost use Rattle.aig_circuit.specs.Circuit.{Circuit, IsCircuit};
ghost use Rattle.aig_runs.specs.Safety.{IsCircuitSafeAt, IsSafeAt};
ghost use Rattle.aig_format.specs.Circuit.{IsReadAgain, circuit_of, file_of};
ghost use Rattle.aig_format.specs.declared.FileKind.TheVariants.{Text};
ghost use Rattle.aig_format.specs.File.{File};
ghost use Rattle.aig_format.specs.Fits.{Accepts, Fits};
ghost use Rattle.aig_format.specs.Writable.{FitsFormat, IsWritable};
ghost use Rattle.aig_runs.specs.Queries.{IsSafeTo};
ghost use Rattle.aig_join.specs.Joined.{CanShare, further_leaves, joined, number_in_joint};
ghost use Rattle.aig_join.specs.Names.{is_taken, other_name};
ghost use Rattle.aig_join.specs.Pairs.{JoinsRuns};
ghost use Rattle.aig_join.specs.Miter.{AreEqualAt, ComparesRuns, HaveSameCounts, IsMiter};
ghost use Rattle.aig_join.specs.Files.{AreEqualMachinesAt, HasLinesOf, HaveSameFileCounts};
ghost use Rattle.aig_join.specs.Alike.{AreEqualAlikeAt, AreEqualMachinesFrom, IsAlikeMiter, IsMiterFrom};
ghost use Rattle.aig_join.specs.Constraints.{AreEqualConstrainedAt, AreEqualMachinesBy, IsMiterBy};
ghost use Rattle.aig_join.specs.declared.comparison.Comparison.{Comparison};
ghost use Rattle.aig_join.specs.declared.comparison.Constraints.TheVariants.{Compared};
ghost use Rattle.aig_join.specs.declared.starts.Matching.{Matching};
ghost use Rattle.aig_join.specs.declared.starts.Starts.{Starts};
ghost use Rattle.aig_join.specs.Certificate.{Certifies, HasConstantFurtherInits, HasLeavesOf, certified};

/// Law: two circuits joined are a circuit, whose runs are pairs of runs of the two.
pub fn joining_pairs_runs()
    ensures circuit { (latches : ℕ) (first second : Circuit) → IsCircuit first → IsCircuit second
        → CanShare latches first second → IsCircuit (joined latches first second) }
    ensures runs { (latches : ℕ) (first second : Circuit) → IsCircuit first → IsCircuit second
        → CanShare latches first second
        → JoinsRuns latches first second (joined latches first second)
        (number_in_joint latches first second) }
{}

/// Law: in two circuits joined the nodes of the first keep their names, and the further inputs and latches of the second
/// have theirs behind the prefix, but those that an input or a latch of the first has.
pub fn joint_circuits_keep_names()
    ensures first { (latches : ℕ) (first second : Circuit) (n : ℕ) → IsCircuit first
        → IsCircuit second → CanShare latches first second → n < length first.nodes
        → get (joined latches first second).names n ≡ get first.names n }
    ensures second { (latches : ℕ) (first second : Circuit) → IsCircuit first → IsCircuit second
        → CanShare latches first second
        → All (λ n. get (joined latches first second).names (number_in_joint latches first second n)
        ≡ other_name (is_taken first) (get second.names n)) (further_leaves latches first second) }
{}

/// Law: the miter of two circuits is a circuit, whose runs are pairs of runs with the same inputs, and whose bad edges
/// hold where outputs or bad edges differ; it is safe at a step exactly where these are equal there.
pub fn miters_compare_runs()
    ensures circuit { (a b m : Circuit) → IsCircuit a → IsCircuit b → HaveSameCounts a b
        → IsMiter a b m → IsCircuit m }
    ensures runs { (a b m : Circuit) → IsCircuit a → IsCircuit b → HaveSameCounts a b
        → IsMiter a b m → ComparesRuns a b m (number_in_joint 0 a b) }
    ensures safe { (a b m : Circuit) (k : ℕ) → IsCircuit a → IsCircuit b → HaveSameCounts a b
        → IsMiter a b m → IsCircuitSafeAt m k ↔ AreEqualAt a b k }
{}

/// Law: a model beside a witness circuit, whose further latches have constant initial edges or none, is a circuit with the
/// model's runs; where it is safe at a step, the model is.
pub fn witness_circuits_certify()
    ensures circuit { (model witness : Circuit) → IsCircuit model → IsCircuit witness
        → HasLeavesOf witness model → IsCircuit (certified model witness) }
    ensures runs { (model witness : Circuit) → IsCircuit model → IsCircuit witness
        → HasLeavesOf witness model → HasConstantFurtherInits model witness
        → Certifies model witness (certified model witness)
        (number_in_joint (length model.latchs) model witness) }
    ensures safe { (model witness : Circuit) (k : ℕ) → IsCircuit model → IsCircuit witness
        → HasLeavesOf witness model → HasConstantFurtherInits model witness
        → IsCircuitSafeAt (certified model witness) k → IsCircuitSafeAt model k }
{}

/// Law: the miter of the circuits of two files that fit is safe at a step exactly where the outputs and bad literals of
/// their machines are equal there, on all runs from initial states with the same inputs that meet the constraints of both.
pub fn miters_compare_machines()
    ensures { (f g : File) (limit bound k : ℕ) (m : Circuit) → Fits f limit → Fits g bound
        → HaveSameFileCounts f g → IsMiter (circuit_of f) (circuit_of g) m
        → IsCircuitSafeAt m k ↔ AreEqualMachinesAt f g k }
{}

/// Law: where the circuit of a file beside that of a witness file is safe, the machine of the file is.
pub fn witness_files_certify()
    ensures step { (f g : File) (limit bound k : ℕ) → Fits f limit → Fits g bound → HasLinesOf g f
        → IsCircuitSafeAt (certified (circuit_of f) (circuit_of g)) k → IsSafeAt f k }
    ensures steps { (f g : File) (limit bound n : ℕ) → Fits f limit → Fits g bound
        → HasLinesOf g f
        → ((k : ℕ) → k ≤ n → IsCircuitSafeAt (certified (circuit_of f) (circuit_of g)) k)
        → IsSafeTo f n }
{}

/// Law: of circuits that have a written form, what is joined of them has one where it isn't too large for the format.
pub fn joint_circuits_are_written()
    ensures joined { (latches : ℕ) (first second : Circuit) → IsCircuit first → IsCircuit second
        → CanShare latches first second → IsWritable first → IsWritable second
        → FitsFormat (joined latches first second) → IsWritable (joined latches first second) }
    ensures miter { (a b m : Circuit) → IsCircuit a → IsCircuit b → HaveSameCounts a b
        → IsMiter a b m → IsWritable a → IsWritable b → FitsFormat m → IsWritable m }
    ensures certified { (model witness : Circuit) → IsCircuit model → IsCircuit witness
        → HasLeavesOf witness model → IsWritable model → IsWritable witness
        → FitsFormat (certified model witness) → IsWritable (certified model witness) }
{}

/// Law: the text of the miter of two accepted files' circuits is an accepted file where it isn't too large, and its
/// machine is safe at a step exactly where outputs and bad literals of the two machines are equal there.
pub fn written_miters_compare_machines()
    ensures { (f g : File) (limit bound : ℕ) (bytes others : List ℕ) (m : Circuit)
        → limit ≤ 2 ^ 31 → bound ≤ 2 ^ 31 → Accepts bytes limit f → Accepts others bound g
        → HaveSameFileCounts f g → IsMiter (circuit_of f) (circuit_of g) m → FitsFormat m
        → IsReadAgain m (file_of Text m)
        × ((k : ℕ) → IsSafeAt (file_of Text m) k ↔ AreEqualMachinesAt f g k) }
{}

/// Law: the text of an accepted file's circuit beside that of a witness file is an accepted file where it isn't too large,
/// and where its machine is safe up to a step, that of the first file is.
pub fn written_witnesses_certify()
    ensures { (f g : File) (limit bound : ℕ) (bytes others : List ℕ)
        → limit ≤ 2 ^ 31 → bound ≤ 2 ^ 31 → Accepts bytes limit f → Accepts others bound g
        → HasLinesOf g f → FitsFormat (certified (circuit_of f) (circuit_of g))
        → IsReadAgain (certified (circuit_of f) (circuit_of g))
        (file_of Text (certified (circuit_of f) (circuit_of g)))
        × ((n : ℕ) → IsSafeTo (file_of Text (certified (circuit_of f) (circuit_of g))) n
        → IsSafeTo f n) }
{}

/// Law: a miter of two circuits whose matched registers start alike is safe at a step exactly where outputs and bad edges are equal there on
/// all runs with the same inputs whose matched registers start alike.
pub fn alike_miters_compare_runs()
    ensures { (matching : Matching) (a b m : Circuit) (k : ℕ) → IsCircuit a → IsCircuit b
        → HaveSameCounts a b → IsAlikeMiter matching a b m
        → IsCircuitSafeAt m k ↔ AreEqualAlikeAt matching a b k }
{}

/// Law: a miter of two circuits whose constraints are compared, too, is safe at a step exactly where
/// this is true of all runs with the same inputs whose registers start as is said and that meet the
/// constraints of both at every step before: both meet theirs there, or neither does, and outputs and
/// bad edges are equal where both do.
pub fn constrained_miters_compare_runs()
    ensures { (starts : Starts) (a b m : Circuit) (k : ℕ) → IsCircuit a → IsCircuit b
        → HaveSameCounts a b
        → IsMiterBy (record { starts = starts; constraints = Compared }) a b m
        → IsCircuitSafeAt m k ↔ AreEqualConstrainedAt starts a b k }
{}

/// Law: the text of the miter of two accepted files' circuits, with registers that start as is said, is an accepted file where it isn't too
/// large, and its machine is safe at a step exactly where outputs and bad literals of the two machines are equal there on all runs whose
/// registers start so.
pub fn written_miters_compare_machines_from()
    ensures { (starts : Starts) (f g : File) (limit bound : ℕ) (bytes others : List ℕ) (m : Circuit)
        → limit ≤ 2 ^ 31 → bound ≤ 2 ^ 31 → Accepts bytes limit f → Accepts others bound g
        → HaveSameFileCounts f g → IsMiterFrom starts (circuit_of f) (circuit_of g) m → IsCircuit m
        → FitsFormat m
        → IsReadAgain m (file_of Text m)
        × ((k : ℕ) → IsSafeAt (file_of Text m) k ↔ AreEqualMachinesFrom starts f g k) }
{}

/// Law: the text of the miter of two accepted files' circuits, which are compared as is said, is an
/// accepted file where it isn't too large, and its machine is safe at a step exactly where the two
/// machines are equal there by this comparison.
pub fn written_miters_compare_machines_by()
    ensures { (comparison : Comparison) (f g : File) (limit bound : ℕ) (bytes others : List ℕ)
        (m : Circuit) → limit ≤ 2 ^ 31 → bound ≤ 2 ^ 31 → Accepts bytes limit f
        → Accepts others bound g → HaveSameFileCounts f g
        → IsMiterBy comparison (circuit_of f) (circuit_of g) m → IsCircuit m → FitsFormat m
        → IsReadAgain m (file_of Text m)
        × ((k : ℕ) → IsSafeAt (file_of Text m) k ↔ AreEqualMachinesBy comparison f g k) }
{}

/// Law: two circuits have one miter.
pub fn miters_are_one()
    ensures { (a b m n : Circuit) → IsMiter a b m → IsMiter a b n → m ≡ n }
{}
