use crate::scripts::Stored;

pub(crate) const SCRIPT: Stored = Stored {
    rack: "machine=board",
    lines: "submit 1 4 7 1
submit 1 4 7 1 42
submit 1 4 7 1 42 9
hello
show 1
",
    prints: "not a call: submit 1 4 7 1 (a line is timeout, elect, win, commit, stop or show CARD; ship or take CARD PEER; push or look CARD PEER KIND; or submit CARD QUEUE LOAD ACT CARRIER)
no 5
not a call: submit 1 4 7 1 42 9 (a line is timeout, elect, win, commit, stop or show CARD; ship or take CARD PEER; push or look CARD PEER KIND; or submit CARD QUEUE LOAD ACT CARRIER)
not a call: hello (a line is timeout, elect, win, commit, stop or show CARD; ship or take CARD PEER; push or look CARD PEER KIND; or submit CARD QUEUE LOAD ACT CARRIER)
card 1: electing
  epoch 0.0, new epoch 0.0, vote 0.0 with 0.0.0
  accepted 0.0.0, committed 0.0.0, next 0.0.0
  peer 2: nothing shipped; accept 0.0.0, vote 0.0 with 0.0.0, commit 0.0.0
  peer 3: nothing shipped; accept 0.0.0, vote 0.0 with 0.0.0, commit 0.0.0
  log: 0 of 16 places
  board: every load is open
card 1
card 2
card 3
",
};
