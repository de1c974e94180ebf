use crate::scripts::Stored;

pub(crate) const SCRIPT: Stored = Stored {
    rack: "",
    lines: "
   
hello
timeout
timeout 1 2
timeout one
Timeout 1
timeout 1.5
timeout +1
timeout  1 
submit 1 4 2
submit 1 4 2 -500 7
push 1 2
show
show 4
show 1
ship 1 2 3
submit 1 4 2 - 500
timeout 00000000000000000000000000000000000000001
show 1 
",
    prints: "not a call:  (a line is timeout, elect, win, commit, stop or show CARD; ship or take CARD PEER; push or look CARD PEER KIND; or submit CARD QUEUE CARRIER CENTS)
not a call:     (a line is timeout, elect, win, commit, stop or show CARD; ship or take CARD PEER; push or look CARD PEER KIND; or submit CARD QUEUE CARRIER CENTS)
not a call: hello (a line is timeout, elect, win, commit, stop or show CARD; ship or take CARD PEER; push or look CARD PEER KIND; or submit CARD QUEUE CARRIER CENTS)
not a call: timeout (a line is timeout, elect, win, commit, stop or show CARD; ship or take CARD PEER; push or look CARD PEER KIND; or submit CARD QUEUE CARRIER CENTS)
not a call: timeout 1 2 (a line is timeout, elect, win, commit, stop or show CARD; ship or take CARD PEER; push or look CARD PEER KIND; or submit CARD QUEUE CARRIER CENTS)
not a call: timeout one (a line is timeout, elect, win, commit, stop or show CARD; ship or take CARD PEER; push or look CARD PEER KIND; or submit CARD QUEUE CARRIER CENTS)
not a call: Timeout 1 (a line is timeout, elect, win, commit, stop or show CARD; ship or take CARD PEER; push or look CARD PEER KIND; or submit CARD QUEUE CARRIER CENTS)
not a call: timeout 1.5 (a line is timeout, elect, win, commit, stop or show CARD; ship or take CARD PEER; push or look CARD PEER KIND; or submit CARD QUEUE CARRIER CENTS)
not a call: timeout +1 (a line is timeout, elect, win, commit, stop or show CARD; ship or take CARD PEER; push or look CARD PEER KIND; or submit CARD QUEUE CARRIER CENTS)
ok 0 1
not a call: submit 1 4 2 (a line is timeout, elect, win, commit, stop or show CARD; ship or take CARD PEER; push or look CARD PEER KIND; or submit CARD QUEUE CARRIER CENTS)
not a call: submit 1 4 2 -500 7 (a line is timeout, elect, win, commit, stop or show CARD; ship or take CARD PEER; push or look CARD PEER KIND; or submit CARD QUEUE CARRIER CENTS)
not a call: push 1 2 (a line is timeout, elect, win, commit, stop or show CARD; ship or take CARD PEER; push or look CARD PEER KIND; or submit CARD QUEUE CARRIER CENTS)
not a call: show (a line is timeout, elect, win, commit, stop or show CARD; ship or take CARD PEER; push or look CARD PEER KIND; or submit CARD QUEUE CARRIER CENTS)
no 1
card 1: electing
  epoch 0.0, new epoch 0.1, vote 0.1 with 0.0.0
  accepted 0.0.0, committed 0.0.0, next 0.0.0
  peer 2: nothing shipped; accept 0.0.0, vote 0.0 with 0.0.0, commit 0.0.0
  peer 3: nothing shipped; accept 0.0.0, vote 0.0 with 0.0.0, commit 0.0.0
  log: 0 of 16 places
  ledger: every balance is 0
not a call: ship 1 2 3 (a line is timeout, elect, win, commit, stop or show CARD; ship or take CARD PEER; push or look CARD PEER KIND; or submit CARD QUEUE CARRIER CENTS)
not a call: submit 1 4 2 - 500 (a line is timeout, elect, win, commit, stop or show CARD; ship or take CARD PEER; push or look CARD PEER KIND; or submit CARD QUEUE CARRIER CENTS)
ok 1 1
card 1: electing
  epoch 0.0, new epoch 1.1, vote 1.1 with 0.0.0
  accepted 0.0.0, committed 0.0.0, next 0.0.0
  peer 2: nothing shipped; accept 0.0.0, vote 0.0 with 0.0.0, commit 0.0.0
  peer 3: nothing shipped; accept 0.0.0, vote 0.0 with 0.0.0, commit 0.0.0
  log: 0 of 16 places
  ledger: every balance is 0
card 1
card 2
card 3
",
};
