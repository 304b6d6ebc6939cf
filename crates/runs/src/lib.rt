// Runs by hand, as rows: see specs/Rows.antt. Paper 01's starred ones: see specs/Table.antt. Paper 02's stride: see specs/Strides.antt. More tables are in card_runs, spacer_runs and long_runs.
#![tactic(auto)]
