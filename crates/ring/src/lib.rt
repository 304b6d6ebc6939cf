// A sub's held cells in straight runs, and the distance along them: see specs/Segments.antt and specs/HeldCells.antt.
#![tactic(auto)]
