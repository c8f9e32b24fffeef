// Laws only: a search that was recorded as it was made replays the same. The theorems stand in specs/replay_kept/Replays.
