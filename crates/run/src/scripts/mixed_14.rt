use crate::scripts::Stored;

pub(crate) const SCRIPT: Stored = Stored {
    rack: "cards=7",
    lines: "push 4 5 5
push 2 4 6
elect 1
ship 3 7
take 2 4
win 6
commit 4
push 1 4 4
ship 3 2
commit 2
commit 2
commit 5
timeout 1
commit 6
look 5 4 5
look 4 2 6
commit 5
ship 3 3
win 3
win 3
push 1 4 5
push 3 3 5
push 2 3 5
commit 1
submit 3 6 2 250
push 3 6 4
take 6 3
ship 2 3
look 4 1 4
ship 1 4
commit 4
push 2 7 4
elect 5
win 4
elect 4
submit 7 5 2 250
submit 7 6 2 -500
commit 5
win 1
commit 4
elect 6
push 6 8 5
look 7 2 4
push 7 6 6
ship 3 2
take 4 2
take 7 3
commit 1
look 6 3 4
look 4 1 5
take 3 2
take 1 7
ship 4 4
look 6 7 6
ship 6 5
ship 7 6
take 5 4
elect 6
look 3 2 5
ship 4 4
win 1
commit 7
elect 7
push 7 4 4
ship 1 3
look 4 7 4
push 1 1 5
win 4
submit 4 8 2 -500
submit 3 5 2 250
show 4
submit 3 7 3 500
push 3 4 4
push 5 1 5
ship 5 1
win 7
timeout 2
take 1 5
look 4 3 4
submit 3 16 2 250
take 1 7
take 3 6
commit 3
elect 4
ship 1 7
look 1 5 5
commit 7
win 3
commit 6
ship 6 7
commit 3
submit 7 9 2 -500
push 1 2 6
timeout 4
look 2 1 6
push 6 5 5
submit 2 9 2 250
submit 7 5 3 500
win 6
commit 3
look 5 6 5
commit 2
take 3 7
look 7 1 5
submit 6 8 2 250
push 6 1 4
commit 7
push 2 3 4
elect 7
commit 8
ship 1 4
commit 1
win 2
look 1 6 4
commit 4
look 3 2 4
push 2 2 6
take 6 6
look 7 4 5
ship 3 4
commit 4
push 2 1 4
take 5 6
take 7 8
push 2 7 4
ship 2 6
ship 5 5
look 7 2 4
push 4 1 4
ship 7 4
elect 4
submit 3 10 2 250
look 1 4 4
commit 7
take 5 3
push 7 6 6
look 1 2 4
look 6 7 6
take 7 3
submit 4 11 3 500
look 7 1 6
ship 6 4
ship 5 4
ship 7 6
look 6 1 4
submit 7 1 2 -500
ship 4 5
ship 1 1
submit 1 13 2 -500
take 5 7
elect 5
submit 5 13 3 500
push 4 4 6
submit 3 8 2 -500
ship 5 5
submit 4 14 2 -500
win 7
take 1 2
ship 3 7
commit 5
submit 1 6 2 250
push 2 1 5
ship 2 5
commit 6
commit 4
ship 5 5
push 7 6 6
look 2 6 4
submit 4 3 2 250
look 6 7 6
commit 7
elect 1
take 6 1
look 1 2 5
take 5 4
push 2 3 6
win 6
take 1 2
push 5 5 5
submit 7 8 0 -2147483649
commit 3
look 3 2 6
commit 5
look 5 3 5
push 3 6 5
push 3 3 5
push 3 6 6
ship 2 4
win 5
ship 7 2
push 5 6 5
look 6 3 5
look 6 3 6
look 6 5 5
look 3 5 6
ship 6 5
take 1 3
look 7 4 6
look 6 3 6
commit 7
look 2 6 4
look 1 2 4
ship 1 1
elect 1
look 5 1 4
look 2 1 4
push 5 6 4
ship 4 3
win 1
commit 2
take 2 4
push 4 7 6
elect 5
take 4 1
ship 2 5
commit 3
take 1 1
look 6 5 4
submit 6 14 2 -500
ship 2 1
win 7
look 7 4 6
look 5 4 4
ship 2 5
elect 3
look 7 7 4
take 7 3
submit 3 0 2 -500
take 1 7
ship 7 2
win 3
ship 4 4
take 2 1
commit 1
commit 2
take 3 1
ship 3 2
look 6 1 6
look 2 5 5
ship 1 5
commit 5
ship 3 6
push 6 1 5
commit 1
push 2 1 4
submit 1 16 2 -500
look 1 6 5
commit 5
look 1 2 4
take 7 5
submit 5 12 32 0
push 1 7 6
ship 6 4
submit 4 12 2 -500
look 7 1 6
commit 4
commit 1
look 6 4 4
push 2 5 5
take 4 6
ship 4 1
elect 7
commit 1
ship 6 3
ship 3 1
submit 3 10 3 500
push 2 2 5
commit 2
take 4 7
look 5 2 5
look 7 1 5
elect 1
commit 4
look 2 7 4
push 4 6 5
commit 2
commit 2
take 4 5
push 4 7 6
elect 2
take 1 1
commit 3
push 1 1 6
look 6 4 5
ship 2 5
look 7 4 6
submit 7 15 2 250
take 5 2
submit 5 11 2 -500
ship 5 6
look 1 6 6
push 4 1 4
ship 1 6
ship 5 5
push 1 7 5
stop 1
commit 2
take 4 6
look 7 1 5
win 3
look 1 4 4
look 1 4 4
commit 5
ship 1 2
push 6 6 5
take 7 3
commit 7
push 3 4 5
look 4 3 5
submit 6 1 3 500
look 1 4 4
commit 7
ship 7 2
look 1 4 4
ship 7 4
take 7 2
push 7 7 5
push 4 6 5
commit 7
take 7 1
push 2 7 4
submit 5 12 2 -500
take 7 7
push 4 5 5
look 7 2 4
elect 4
push 5 6 4
submit 7 5 3 500
commit 3
push 5 7 4
elect 1
take 4 6
push 2 4 5
commit 6
take 2 1
push 6 7 6
take 4 3
look 7 6 6
push 6 4 5
submit 5 0 2 250
look 2 3 4
ship 5 1
ship 1 4
commit 6
look 4 6 5
push 7 3 5
submit 7 15 2 -500
take 3 6
look 1 4 4
look 7 5 4
win 6
take 5 5
commit 6
look 6 6 6
push 6 1 5
ship 3 5
push 1 6 4
ship 5 6
submit 4 11 2 -500
look 7 1 4
look 5 4 5
win 4
commit 7
look 1 6 5
submit 5 8 3 500
commit 4
push 3 5 5
ship 7 6
look 6 5 4
push 6 7 4
elect 5
commit 1
submit 1 12 3 500
look 7 6 4
take 2 3
commit 7
take 3 2
take 2 0
commit 1
push 3 2 5
win 1
push 2 7 5
push 6 7 5
ship 4 1
win 1
ship 7 6
submit 2 0 2 -500
push 2 3 4
commit 3
take 1 1
ship 5 2
take 5 7
look 7 2 5
ship 5 6
timeout 5
commit 7
look 3 7 5
submit 1 4 2 -500
commit 6
push 3 3 5
timeout 3
push 2 5 5
push 2 1 5
commit 4
look 1 6 5
commit 6
look 5 2 5
win 2
win 1
look 7 6 5
win 7
commit 3
commit 6
timeout 6
take 6 3
submit 3 12 2 250
ship 4 2
ship 6 5
take 3 2
submit 3 4 2 -500
timeout 2
look 1 6 5
ship 1 2
push 5 7 5
show 2
look 7 5 5
elect 4
look 6 4 5
push 2 1 6
look 2 3 5
take 7 3
look 1 2 5
push 3 5 6
ship 4 2
submit 7 12 3 500
win 5
take 3 7
take 6 2
ship 3 5
push 5 7 5
push 6 6 4
push 3 6 4
commit 6
push 5 1 6
submit 7 7 2 250
take 6 6
submit 3 9 2 250
submit 2 11 99999999999999999999 1
push 7 5 5
take 3 4
look 6 3 4
submit 2 12 0 -2147483649
submit 8 15 2 -500
look 3 2 4
submit 6 16 31 2147483647
ship 7 6
push 2 3 6
take 5 2
commit 7
submit 5 12 3 500
commit 3
push 7 6 5
take 2 5
take 3 1
timeout 7
look 1 2 6
submit 1 10 2 -500
commit 1
look 1 2 5
submit 3 7 2 250
take 3 1
look 2 4 6
commit 5
commit 1
submit 2 7 2 250
take 7 7
submit 6 6 3 500
look 7 5 5
look 1 2 6
win 4
look 1 2 5
elect 2
submit 6 7 2 -500
look 4 2 5
timeout 7
look 1 4 4
take 6 1
submit 3 0 3 500
submit 3 7 2 250
win 7
push 1 1 5
timeout 7
commit 7
take 4 1
elect 7
commit 2
push 5 7 4
elect 6
elect 4
look 5 3 6
",
    prints: "ok
ok
ok 0
no 5
no 6
no 7
no 5
ok
no 5
no 5
no 5
no 5
ok 0 1
no 5
ok
ok
no 5
no 1
no 7
no 7
ok
no 1
ok
no 5
no 5
ok
no 6
no 5
ok
no 5
no 5
ok
ok 0
no 7
ok 0
no 5
no 5
no 5
no 7
no 5
ok 0
no 1
ok
ok
no 5
no 6
no 6
no 5
ok
ok
no 6
no 6
no 1
ok
no 5
no 5
no 6
ok 0
ok
no 1
no 7
no 5
ok 0
ok
no 5
ok
no 1
no 7
no 5
no 5
card 4: electing
  epoch 0.0, new epoch 0.0, vote 0.0 with 0.0.0
  accepted 0.0.0, committed 0.0.0, next 0.0.0
  peer 1: nothing shipped; accept 0.0.0, vote 0.1 with 0.0.0, commit 0.0.0
  peer 2: nothing shipped; accept 0.0.0, vote 0.0 with 0.0.0, commit 0.0.0
  peer 3: nothing shipped; accept 0.0.0, vote 0.0 with 0.0.0, commit 0.0.0
  peer 5: nothing shipped; accept 0.0.0, vote 0.0 with 0.0.0, commit 0.0.0
  peer 6: nothing shipped; accept 0.0.0, vote 0.0 with 0.0.0, commit 0.0.0
  peer 7: nothing shipped; accept 0.0.0, vote 0.0 with 0.0.0, commit 0.0.0
  log: 0 of 16 places
  ledger: every balance is 0
no 5
ok
ok
no 5
no 7
ok 0 2
no 6
ok
no 3
no 6
no 6
no 5
ok 2
no 5
ok
no 5
no 7
no 5
no 5
no 5
no 5
ok
ok 0 4
ok
ok
no 5
no 5
no 7
no 5
ok
no 5
no 6
no 6
no 5
ok
no 5
ok
ok 0
no 1
no 5
no 5
no 7
ok
no 5
ok
no 1
no 1
no 6
no 5
no 5
ok
no 6
no 1
ok
no 5
no 1
ok
ok
no 5
ok 0
no 5
ok
no 5
no 6
ok
ok
ok
no 6
no 5
no 6
no 5
no 5
no 5
no 6
no 5
no 5
no 1
no 5
no 6
ok 0
no 5
no 1
no 5
no 1
no 5
no 7
no 6
no 5
no 5
no 5
ok
no 5
no 5
no 5
no 1
ok
no 6
no 5
ok
no 5
ok 0
no 6
ok
no 6
ok
no 7
no 6
no 1
no 3
no 5
ok
no 5
no 6
ok
no 1
ok
no 5
no 7
no 5
ok
ok
ok
ok
no 6
no 5
no 6
no 6
no 6
no 5
no 6
no 6
no 1
ok 2
no 6
no 6
ok
no 5
no 7
no 5
no 6
ok
ok 0
no 6
no 5
no 5
no 1
ok
no 5
no 5
no 7
ok
no 6
no 5
ok 0
no 1
no 6
no 5
no 6
no 5
no 7
no 1
no 6
no 5
no 5
no 6
no 5
no 6
no 6
no 5
no 5
no 5
ok
no 5
ok
no 3
ok
no 5
ok
no 6
no 3
ok
no 5
no 5
ok
no 5
no 5
no 6
ok
no 6
no 5
ok 0
no 5
no 5
no 5
no 5
no 1
no 5
no 6
ok
no 6
ok 0
no 5
no 6
ok
no 5
no 5
no 6
ok
ok 0
no 1
no 5
no 1
ok
no 5
ok
no 5
no 6
no 5
no 5
no 6
ok
no 5
no 1
ok
ok
no 5
no 6
ok
no 7
no 4
no 4
no 5
no 4
no 1
no 6
no 5
ok
ok
no 5
no 4
no 5
no 5
no 4
no 5
no 6
no 1
ok
no 5
no 6
ok
no 5
no 1
ok
ok
ok 0
ok
no 5
no 5
ok
no 4
no 6
ok
no 5
no 6
ok
no 6
ok
ok
no 5
no 6
no 5
no 4
no 5
ok
ok
no 5
no 6
no 4
ok
no 7
no 1
no 5
no 1
ok
no 5
no 4
no 5
no 5
no 6
ok
no 7
no 5
no 4
no 5
no 5
ok
no 5
ok
ok
ok 2
no 4
no 4
ok
no 6
no 5
no 6
no 1
no 4
ok
no 4
ok
ok
no 5
no 4
no 5
no 5
ok
no 5
no 1
no 5
no 6
ok
no 5
ok 0 5
no 5
ok
no 4
no 5
no 1
ok 0 3
ok
ok
no 5
no 4
no 5
ok
no 7
no 4
ok
no 7
no 5
no 5
ok 0 6
no 6
no 5
no 5
no 5
no 6
no 5
ok 1 2
no 4
no 4
ok
card 2: electing
  epoch 0.0, new epoch 1.2, vote 1.2 with 0.0.0
  accepted 0.0.0, committed 0.0.0, next 0.0.0
  peer 1: nothing shipped; accept 0.0.0, vote 0.0 with 0.0.0, commit 0.0.0
  peer 3: nothing shipped; accept 0.0.0, vote 0.0 with 0.0.0, commit 0.0.0
  peer 4: nothing shipped; accept 0.0.0, vote 0.0 with 0.0.0, commit 0.0.0
  peer 5: nothing shipped; accept 0.0.0, vote 0.0 with 0.0.0, commit 0.0.0
  peer 6: nothing shipped; accept 0.0.0, vote 0.0 with 0.0.0, commit 0.0.0
  peer 7: nothing shipped; accept 0.0.0, vote 0.0 with 0.0.0, commit 0.0.0
  log: 0 of 16 places
  ledger: every balance is 0
ok
ok 0
ok
ok
ok
no 6
no 4
ok
no 5
no 5
no 7
no 6
no 6
no 5
ok
no 1
ok
no 5
ok
no 5
no 1
no 5
no 3
ok
no 6
ok
no 3
no 1
ok
no 3
no 5
ok
no 6
no 5
no 5
no 5
ok
no 6
no 6
ok 0 7
no 4
no 4
no 4
no 4
no 5
no 6
no 6
no 5
no 4
no 5
no 1
no 5
ok
no 4
no 7
no 4
ok 0
no 5
ok
ok 1 7
no 4
no 6
no 5
no 5
no 7
no 1
ok 2 7
no 5
no 6
ok 0
no 5
ok
ok 0
ok 0
ok
card 1
card 2
card 3
card 4
card 5
card 6
card 7
",
};
