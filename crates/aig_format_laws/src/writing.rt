//! Laws of the written forms of a circuit.

ghost use Rattle.aig_circuit.specs.Circuit.{Circuit, IsCircuit};
ghost use Rattle.aig_circuit.specs.Reencode.{reencoded};
ghost use Rattle.aig_format.specs.declared.FileKind.{FileKind};
ghost use Rattle.aig_format.specs.declared.FileKind.TheVariants.{Binary};
ghost use Rattle.aig_format.specs.File.{defined};
ghost use Rattle.aig_format.specs.Spells.{Placed};
ghost use Rattle.aig_format.specs.Circuit.{IsReadAgain, file_of};
ghost use Rattle.aig_format.specs.Writable.{AreTexts, IsWritable};

/// Law: what is written of a circuit is read again: a text always, and a binary form where inputs, latches and gates are numbered in this order.
pub fn written_is_read()
    ensures { (kind : FileKind) (c : Circuit) → IsCircuit c → IsWritable c → AreTexts c.names
        → Placed kind (defined (file_of kind c)) → IsReadAgain c (file_of kind c) }
{}

/// Law: the binary form of a circuit is read again as its re-encoding, which has a written form where the circuit has one.
pub fn binary_is_read()
    ensures writable { (c : Circuit) → IsCircuit c → IsWritable c → IsWritable (reencoded c) }
    ensures again { (c : Circuit) → IsCircuit c → IsWritable c → AreTexts (reencoded c).names
        → IsReadAgain (reencoded c) (file_of Binary (reencoded c)) }
{}
