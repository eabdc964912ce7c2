ghost use Rattle.std.specs.Prelude.{◌<◌, ◌++◌, ◌∷◌, [], List, length, Some, None};
ghost use Rattle.std.specs.List.{Any};
ghost use Rattle.net_udp.specs.Copies.Copies.{Packet, AreOne, IsCopy};
ghost use Rattle.net_udp.specs.Copies.Worked.{acknowledgement, interface};

/// A copy is one with a packet that came before it: of other bytes, or of bytes that came more than 1 ms apart, nothing is
/// told to be a copy.
pub fn copy_came_before()
    ensures { (before : List Packet) (p : Packet) → IsCopy before p → Any (AreOne p) before }
{}

/// A packet is told to be a copy wherever fewer than 16 stand between it and one that it is one with.
pub fn near_packet_is_told()
    ensures { (between before : List Packet) (p q : Packet) → AreOne p q → length between < 16 → IsCopy (between ++ q ∷ before) p }
{}

/// Worked examples: an acknowledgement that was recorded again at another interface, 1 ms later or before, at the most,
/// perhaps after another one; at the same number of another section, or by another number of the link header; at the same
/// interface, where the network or its sender repeated it; one nanosecond later still; one with another identification; and
/// one without a time.
pub fn worked_copies()
    ensures copy { IsCopy (acknowledgement 7 (interface 0) (Some 1000000000) ∷ []) (acknowledgement 7 (interface 1) (Some 1001000000)) }
    ensures earlier { IsCopy (acknowledgement 9 (interface 1) (Some 1000000000) ∷ acknowledgement 7 (interface 1) (Some 1000000000) ∷ []) (acknowledgement 7 (interface 0) (Some 999000000)) }
    ensures section { IsCopy (acknowledgement 7 (interface 0) (Some 1000000000) ∷ []) (acknowledgement 7 (record (interface 0) { section = 2 }) (Some 1000000000)) }
    ensures index { IsCopy (acknowledgement 7 (interface 0) (Some 1000000000) ∷ []) (acknowledgement 7 (record (interface 0) { index = 3 }) (Some 1000000000)) }
    ensures here { IsCopy (acknowledgement 7 (interface 0) (Some 1000000000) ∷ []) (acknowledgement 7 (interface 0) (Some 1000000000)) → ⊥ }
    ensures later { IsCopy (acknowledgement 7 (interface 0) (Some 1000000000) ∷ []) (acknowledgement 7 (interface 1) (Some 1001000001)) → ⊥ }
    ensures repeated { IsCopy (acknowledgement 7 (interface 0) (Some 1000000000) ∷ []) (acknowledgement 8 (interface 1) (Some 1000000000)) → ⊥ }
    ensures untimed { IsCopy (acknowledgement 7 (interface 0) (Some 1000000000) ∷ []) (acknowledgement 7 (interface 1) None) → ⊥ }
{}
